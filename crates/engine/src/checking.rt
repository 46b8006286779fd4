// What calls ask of edges.
ghost use Rattle.std.specs.Prelude.{◌≡◌, ◌&&◌, if◌then◌else◌, Ok, Err, nat_eq};
ghost use Rattle.diagram.specs.declared.refusals.Refusal.TheVariants.{NotAccepted, AritiesDiffer};
ghost use Rattle.diagram.specs.Records.{accepted_in, arity_in};

use crate::states::State;
use diagram::accepting::arity;
use diagram::edges::Edge;
use diagram::refusals::Refusal;

impl State {
    // Whether the edge is accepted.
    pub(crate) fn accepts(&self, edge: Edge) -> bool
        ensures { result ≡ accepted_in self.now.profile.meaning self.now.diamonds edge }
    {
        self.profile
            .meaning()
            .accepts(self.diamonds.as_slice(), edge)
    }

    // The arity of an edge; refused unless it is accepted.
    pub(crate) fn checked(&self, edge: Edge) -> Result<u8, Refusal>
        ensures { result ≡ (if accepted_in self.now.profile.meaning self.now.diamonds edge then Ok (arity_in self.now.diamonds edge) else Err NotAccepted) }
    {
        if !self.accepts(edge) {
            return Err(Refusal::NotAccepted);
        }
        Ok(arity(self.diamonds.as_slice(), edge) as u8)
    }

    // The arity of two edges; refused unless both are accepted and of one arity.
    pub(crate) fn checked_pair(&self, a: Edge, b: Edge) -> Result<u8, Refusal>
        ensures { result ≡ (if accepted_in self.now.profile.meaning self.now.diamonds a && accepted_in self.now.profile.meaning self.now.diamonds b then (if nat_eq (arity_in self.now.diamonds a) (arity_in self.now.diamonds b) then Ok (arity_in self.now.diamonds a) else Err AritiesDiffer) else Err NotAccepted) }
    {
        let n = self.checked(a)?;
        (n == self.checked(b)?)
            .then_some(n)
            .ok_or(Refusal::AritiesDiffer)
    }
}

// Combinations of edges, by halves, through the computed cache.
ghost use Rattle.std.specs.Prelude.{◌≡◌, ◌-◌, ◌<◌, true, false, length, take, replicate, MatchOption, IfOk, if◌then◌else◌, None, Ok, Err, ◌==◌};
ghost use Rattle.diagram.specs.declared.refusals.Refusal.TheVariants.{NotAccepted};
ghost use Rattle.diagram.specs.declared.refusals.Refusal.{Refusal};
ghost use Rattle.diagram.specs.Refusals.{refusal_number};
ghost use Rattle.diagram.specs.Rules.{negate};
ghost use Rattle.diagram.specs.Records.{accepted_in, other_mark};
ghost use Rattle.diagram.specs.RecordTheorems.{rule_in, Answered};
ghost use Rattle.cache.specs.declared.entries.Key.{Key};
ghost use Rattle.cache.specs.Caches.{Noted};
ghost use Rattle.cache.specs.Entries.{key};
ghost use Rattle.engine.specs.Steps.{joint, combine_step, answered, first_answer, negate_step, right_for, given};
ghost use Rattle.engine.specs.Laws.{HeldWell, MapAfter};
ghost use Rattle.engine.specs.States.{KeyOfArity, Halving, Joined, plain_rule};

use crate::combined::Combined;
use crate::engines::Engine;
use crate::states::State;
use basics::arguments::{checked_connective, key_of};
use basics::plain::Plain;
use basics::settling::settled;
use cache::caches::Cache;
use cache::entries::Key;
use diagram::edges::Edge;
use diagram::refusals::Refusal;

// The connective that is the negation of its first operand.
const NOT_FIRST: u32 = 3;

impl State {
    // Whether the dialect negates.
    fn negates(&self) -> bool
        ensures { result ≡ self.now.profile.meaning.negates }
    {
        self.profile.meaning().negates
    }

    // The edge with the other mark; refused unless it is accepted.
    fn opposite(&self, edge: Edge) -> Result<Edge, Refusal>
        ensures { result ≡ (if accepted_in self.now.profile.meaning self.now.diamonds edge then Ok (other_mark edge) else Err NotAccepted) }
    {
        self.checked(edge)?;
        Ok(edge.flip())
    }

    // The combination of the unmarked edges, where the dialect negates, and whether this one is its negation.
    fn plain(&self, key: Key, n: u8) -> Plain
        requires { KeyOfArity self.now.profile.meaning self.now.diamonds key n }
        ensures key { KeyOfArity self.now.profile.meaning self.now.diamonds result.key n }
        ensures mark { result.negated ≡ true → self.now.profile.meaning.negates ≡ true }
        ensures rule { joint self.now.diamonds key.connective key.left key.right ≡ plain_rule self.now.diamonds result }
    {
        if self.negates() {
            Plain::of(key)
        } else {
            Plain {
                key,
                negated: false,
            }
        }
    }

    // Takes back all diamonds but the first `count`; the table is empty.
    fn cut(&mut self, count: usize)
        requires well { HeldWell self.old.profile.meaning (take count self.old.diamonds) }
        requires empty { self.old.table ≡ replicate (length self.old.table) None }
        ensures diamonds { self.new.diamonds ≡ take count self.old.diamonds }
        ensures profile { self.new.profile ≡ self.old.profile }
        ensures table { self.new.table ≡ self.old.table }
    {
        self.diamonds.cut(count);
    }

    // The plain combinations of the low and of the high halves of the edges of n marks, n not 0.
    fn halved(&self, key: Key, n: u8) -> (Plain, Plain)
        requires key { KeyOfArity self.now.profile.meaning self.now.diamonds key n }
        requires some { 0 < n }
        ensures { Halving self.now.profile.meaning self.now.diamonds key n result.0 result.1 }
    {
        let (left_low, left_high) = self.halves(key.left, n);
        let (right_low, right_high) = self.halves(key.right, n);
        let low = Key {
            left: left_low,
            right: right_low,
            ..key
        };
        let high = Key {
            left: left_high,
            right: right_high,
            ..key
        };
        (self.plain(low, n - 1), self.plain(high, n - 1))
    }

    // The edge of a combination that constant, equal or opposite edges of n marks settle; none only where n is not 0.
    fn settled(&self, key: Key, n: u8) -> Option<Edge>
        requires { KeyOfArity self.now.profile.meaning self.now.diamonds key n }
        ensures { MatchOption result (0 < n) (λ e. Joined self.now.profile.meaning self.now.diamonds (joint self.now.diamonds key.connective key.left key.right) (Ok e) self.now.diamonds) }
    {
        settled(self.profile.meaning(), key, n)
    }
}

impl<C: Cache + Drop> Engine<C> {
    // Notes an edge that is right for a key.
    fn note(&mut self, key: Key, edge: Edge)
        requires { right_for self.old.state.profile.meaning self.old.state.diamonds key edge ≡ true }
        ensures state { (self.new.state.diamonds ≡ self.old.state.diamonds) × (self.new.state.profile ≡ self.old.state.profile) }
        ensures noted { Noted C.Cache.KEEPS self.old.state.table self.new.state.table (C.Cache.held self.old.cache self.old.state.table) (C.Cache.held self.new.cache self.new.state.table) key edge }
    {
        self.cache.note(&mut self.state.table, key, edge);
    }

    // The combination of two edges of n marks: settled, or found, or made from those of the halves.
    fn join(&mut self, key: Key, n: u8) -> Result<Edge, Refusal>
        requires { KeyOfArity self.old.state.profile.meaning self.old.state.diamonds key n }
        ensures joined { Joined self.old.state.profile.meaning self.old.state.diamonds (joint self.old.state.diamonds key.connective key.left key.right) result self.new.state.diamonds }
        ensures right { IfOk result (λ e. right_for self.new.state.profile.meaning self.new.state.diamonds key e ≡ true) }
        ensures profile { self.new.state.profile ≡ self.old.state.profile }
        ensures long { length self.new.state.table ≡ length self.old.state.table }
    {
        if let Some(edge) = self.state.settled(key, n) {
            return Ok(edge);
        }
        if let Some(edge) = self.cache.find(&self.state.table, key) {
            return Ok(edge);
        }
        let (low_plain, high_plain) = self.state.halved(key, n);
        let low = self.join(low_plain.key, n - 1)?;
        let high = self.join(high_plain.key, n - 1)?;
        let edge = self
            .state
            .make(low_plain.restore(low), high_plain.restore(high))?;
        self.note(key, edge);
        Ok(edge)
    }

    // Takes back all diamonds but the first `count`, and forgets what the cache holds.
    fn take_back(&mut self, count: usize)
        requires { HeldWell self.old.state.profile.meaning (take count self.old.state.diamonds) }
        ensures diamonds { self.new.state.diamonds ≡ take count self.old.state.diamonds }
        ensures profile { self.new.state.profile ≡ self.old.state.profile }
        ensures long { length self.new.state.table ≡ length self.old.state.table }
        ensures map { (k : Key) → C.Cache.held self.new.cache self.new.state.table k ≡ None }
    {
        self.forget();
        self.state.cut(count);
    }

    // The connective of two edges, and whether the cache found it: the bits of worth 1, 2, 4 and 8 of the connective's number are its values at (0,0), (0,1), (1,0) and (1,1).
    pub fn combine(&mut self, connective: u32, a: Edge, b: Edge) -> Result<Combined, Refusal>
        ensures answer { result ≡ answered (given (C.Cache.held self.old.cache self.old.state.table (key connective a b))) (combine_step self.old.state.profile.meaning self.old.state.diamonds connective a b).0 }
        ensures diamonds { self.new.state.diamonds ≡ (combine_step self.old.state.profile.meaning self.old.state.diamonds connective a b).1 }
        ensures right { IfOk result (λ x. Answered self.old.state.profile.meaning self.old.state.diamonds (joint self.old.state.diamonds connective a b) self.new.state.diamonds x.edge) }
        ensures profile { self.new.state.profile ≡ self.old.state.profile }
        ensures long { length self.new.state.table ≡ length self.old.state.table }
        ensures found { given (C.Cache.held self.old.cache self.old.state.table (key connective a b)) ≡ true → (self.new.state.diamonds ≡ self.old.state.diamonds) × (self.new.state.table ≡ self.old.state.table) }
        ensures still { (x : Refusal) → result ≡ Err x → (refusal_number x == 7) ≡ false → (self.new.cache ≡ self.old.cache) × (self.new.state.table ≡ self.old.state.table) }
        ensures map { MapAfter C.Cache.KEEPS self.old.state.profile.meaning self.new.state.diamonds (key connective a b) (combine_step self.old.state.profile.meaning self.old.state.diamonds connective a b).0 (C.Cache.held self.old.cache self.old.state.table) (C.Cache.held self.new.cache self.new.state.table) }
    {
        let connective = checked_connective(connective)?;
        let n = self.state.checked_pair(a, b)?;
        let key = key_of(connective, a, b);
        if let Some(edge) = self.cache.find(&self.state.table, key) {
            return Ok(Combined { edge, found: true });
        }
        let count = self.state.diamonds.len();
        // both cases do something of their own, so no `?`
        match self.join(key, n) {
            Ok(edge) => {
                self.note(key, edge);
                Ok(Combined { edge, found: false })
            }
            Err(refusal) => {
                self.take_back(count);
                Err(refusal)
            }
        }
    }

    // A combination made twice, one call after the other. With a cache that keeps, the second is found; with any cache it gives the same edge.
    pub fn combine_twice(
        &mut self,
        connective: u32,
        a: Edge,
        b: Edge,
    ) -> Result<(Combined, Combined), Refusal>
        ensures answer { first_answer result ≡ answered (given (C.Cache.held self.old.cache self.old.state.table (key connective a b))) (combine_step self.old.state.profile.meaning self.old.state.diamonds connective a b).0 }
        ensures same { IfOk result (λ p. p.1.edge ≡ p.0.edge) }
        ensures again { C.Cache.KEEPS ≡ true → IfOk result (λ p. p.1.found ≡ true) }
        ensures after { IfOk result (λ p. p.0.found ≡ true → p.1.found ≡ true) }
        ensures gives { IfOk result (λ p. p.1.found ≡ true → given (C.Cache.held self.new.cache self.new.state.table (key connective a b)) ≡ true) }
        ensures diamonds { self.new.state.diamonds ≡ (combine_step self.old.state.profile.meaning self.old.state.diamonds connective a b).1 }
        ensures profile { self.new.state.profile ≡ self.old.state.profile }
        ensures long { length self.new.state.table ≡ length self.old.state.table }
        ensures still { (x : Refusal) → result ≡ Err x → (refusal_number x == 7) ≡ false → (self.new.cache ≡ self.old.cache) × (self.new.state.table ≡ self.old.state.table) }
        ensures map { MapAfter C.Cache.KEEPS self.old.state.profile.meaning self.new.state.diamonds (key connective a b) (combine_step self.old.state.profile.meaning self.old.state.diamonds connective a b).0 (C.Cache.held self.old.cache self.old.state.table) (C.Cache.held self.new.cache self.new.state.table) }
    {
        let first = self.combine(connective, a, b)?;
        let second = self.combine(connective, a, b)?;
        Ok((first, second))
    }

    // The negation of an edge: the other mark where the dialect negates, else the combination of the edge with itself by connective 3, whose value is the negation of the first.
    pub fn negate(&mut self, edge: Edge) -> Result<Edge, Refusal>
        ensures answer { result ≡ (negate_step self.old.state.profile.meaning self.old.state.diamonds edge).0 }
        ensures diamonds { self.new.state.diamonds ≡ (negate_step self.old.state.profile.meaning self.old.state.diamonds edge).1 }
        ensures right { IfOk result (λ e. Answered self.old.state.profile.meaning self.old.state.diamonds (negate (rule_in self.old.state.diamonds edge)) self.new.state.diamonds e) }
        ensures marked { self.old.state.profile.meaning.negates ≡ true → result ≡ (if accepted_in self.old.state.profile.meaning self.old.state.diamonds edge then Ok (other_mark edge) else Err NotAccepted) }
        ensures profile { self.new.state.profile ≡ self.old.state.profile }
        ensures long { length self.new.state.table ≡ length self.old.state.table }
        ensures alone { self.old.state.profile.meaning.negates ≡ true → (self.new.state.diamonds ≡ self.old.state.diamonds) × (self.new.cache ≡ self.old.cache) × (self.new.state.table ≡ self.old.state.table) }
        ensures still { (x : Refusal) → result ≡ Err x → (refusal_number x == 7) ≡ false → (self.new.cache ≡ self.old.cache) × (self.new.state.table ≡ self.old.state.table) }
        ensures map { self.old.state.profile.meaning.negates ≡ false → MapAfter C.Cache.KEEPS self.old.state.profile.meaning self.new.state.diamonds (key 3 edge edge) (negate_step self.old.state.profile.meaning self.old.state.diamonds edge).0 (C.Cache.held self.old.cache self.old.state.table) (C.Cache.held self.new.cache self.new.state.table) }
    {
        if self.state.negates() {
            return self.state.opposite(edge);
        }
        let combined = self.combine(NOT_FIRST, edge, edge)?;
        Ok(combined.edge)
    }
}

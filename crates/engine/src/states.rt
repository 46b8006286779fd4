// What an engine holds: its dialect, its diamonds and the table of its computed cache.
ghost use Rattle.std.specs.Prelude.{◌≡◌, ◌<◌, ◌≤◌, true, length};
ghost use Rattle.diagram.specs.Acceptance.{normal, shallow};
ghost use Rattle.diagram.specs.declared.edges.Edge.{Edge};
ghost use Rattle.cache.specs.declared.entries.Key.{Key};
ghost use Rattle.cache.specs.Tables.{Stands};
ghost use Rattle.engine.specs.Steps.{right_for};
ghost use Rattle.diagram.specs.Records.{store_of, spelled_diamonds};

use cache::tables::Table;
use dialect::profiles::Profile;
use unique::tables::UniqueTable;

// The profile, the diamonds and the table, with what is true of them together.
#[derive(Drop)]
pub struct State {
    pub(crate) profile: Profile,
    pub(crate) diamonds: UniqueTable,
    pub(crate) table: Table,
    // every word is of letters, every diamond could be added to those before it, and none has more than 20 marks; there are at most 1,024
    ghost spelled: { spelled_diamonds diamonds ≡ true },
    ghost proper: { normal profile.meaning (store_of diamonds) ≡ true },
    ghost low: { shallow (store_of diamonds) ≡ true },
    ghost few: { length diamonds ≤ 1024 },
    // the table has a place
    ghost wide: { 0 < length table },
    // every entry of the table is right
    ghost right: { (k : Key) (e : Edge) → Stands table k e → right_for profile.meaning diamonds k e ≡ true },
}

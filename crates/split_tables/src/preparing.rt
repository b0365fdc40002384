// What the lists of all parts are read off: the chains turned round, a table of the reaches, and how many parts hold each cell. The tests 12
// and 13.
ghost use Rattle.std.specs.Prelude.{◌≡◌, true, false, [], ◌≤◌, length, OnOk};
ghost use Rattle.layout.specs.Answers.{refusal_number, refused_as};
ghost use Rattle.layout.specs.Limits.{most_elements};
ghost use Rattle.mesh.specs.Mesh.{top};
ghost use Rattle.mesh.specs.Walks.{bad10, bad13};
ghost use Rattle.mesh.specs.Accepted.{Accepted};
ghost use Rattle.walk_incidence.specs.Links.{Turned};
ghost use Rattle.walk_steps.specs.Walking.{Grounded};
ghost use Rattle.split.specs.Lists.{bad8, sizes_number};
ghost use Rattle.split_classes.specs.Classes.{Prepared};

use layout::Refusal;
use layout::limits::{ELEMENT_PLACES, MOST_HELD};
use split_classes::inner::count_holders;
use walk_incidence::inner::Incidence;
use walk_part_reach::inner::count_all;
use walk_reach_table::inner::{ReachTable, reach_all};
use walk_steps::inner::{Space, Walker};

// Which of the tests 12 and 13 refuses first, where the reaches have too many entries for the table: how many cells the parts hold together is told
// by walks from whole parts, in lent space.
#[tactic(auto, using(crate::proofs::PreparedLaws::overflow_twelve, crate::proofs::PreparedLaws::overflow_thirteen))]
fn overflow(walker: Walker, parts: u32, owners: &[u8], space: &mut Space) -> Refusal
    requires { Grounded walker × (bad8 walker.mesh.now parts owners.now [] ≡ false) × (bad13 walker.mesh.now walker.stencil.now ≡ true) }
    ensures { refusal_number result ≡ sizes_number walker.entry.mesh.now parts owners.now walker.entry.stencil.now }
{
    let held = count_all(walker, owners, parts as usize, space);
    if held <= MOST_HELD {
        Refusal::Reach
    } else {
        Refusal::Held
    }
}

// Prepares the tables for an accepted mesh, map and stencil, in lent space, unless one of the tests 12 and 13 refuses: then the first of them. The row is
// work space.
pub fn prepare(
    m: &[u8],
    parts: u32,
    owners: &[u8],
    stencil: &[u8],
    incidence: &mut Incidence,
    reaches: &mut ReachTable,
    holders: &mut [u8],
    class: &mut [u8],
) -> Result<(), Refusal>
    requires { Accepted m.now × (bad8 m.now parts owners.now [] ≡ false) × (bad10 (top m.now) stencil.now ≡ false)
        × (length holders.old ≡ most_elements) × (length class.old ≡ most_elements) }
    ensures { (refused_as result ≡ sizes_number m.now parts owners.now stencil.now)
        × OnOk result (Prepared m.now parts owners.now stencil.now reaches.new.entries reaches.new.ends holders.new)
        × Turned m.now incidence.new }
{
    incidence.invert(m);
    let walker = Walker::new(m, stencil, incidence.view());
    let mut space = Space {
        marks: [0; ELEMENT_PLACES],
        from: [0; ELEMENT_PLACES],
        found: [0; ELEMENT_PLACES],
        layers: [0; ELEMENT_PLACES],
    };
    if reach_all(walker, &mut space, reaches).is_none() {
        return Err(overflow(walker, parts, owners, &mut space));
    }
    let held = count_holders(
        owners,
        &reaches.entries,
        &reaches.ends,
        walker.sizes.cells,
        parts as usize,
        class,
        holders,
        &mut space.marks,
    );
    if MOST_HELD < held {
        return Err(Refusal::Held);
    }
    Ok(())
}

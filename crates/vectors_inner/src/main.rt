// Calls on the five cells what other programs call only on the way to a reach or a state: the chains turned round, a walker over them, and the words of the
// points that touch a part.
#![tactic(auto)]

ghost use Rattle.std.specs.Prelude.{◌≡◌, false};
ghost use Rattle.mesh.specs.Accepted.{Accepted};
ghost use Rattle.mesh.specs.Mesh.{top};
ghost use Rattle.mesh.specs.Walks.{bad10};
ghost use Rattle.walk_incidence.specs.Links.{Turned};

use layout::limits::{ELEMENT_PLACES, RECORD_PLACES};
use mesh::inner::top_of;
use mesh_valid::test_mesh;
use part_start_plan::inner::{add_points, sought_of};
use part_start_points::inner::count_points;
use vectors_print::{Form, OWNERS, STENCIL, five_cells, print, print_values};
use walk_incidence::inner::Incidence;
use walk_stencil::bad_stencil;
use walk_steps::inner::Walker;

// What a walker goes by, and the cells at point 2 by its lists.
fn show_walker(m: &[u8], stencil: &[u8], incidence: &Incidence)
    requires { Turned m.now incidence.now × (bad10 (top m.now) stencil.now ≡ false) }
{
    let walker = Walker::new(m, stencil, incidence.view());
    print(format_args!(
        "walker: {} bytes, {} elements, {} records, {} cells from {}; stencil of {},",
        walker.mesh.len(),
        walker.sizes.elements,
        walker.sizes.records,
        walker.sizes.cells,
        walker.sizes.first,
        walker.stencil.len()
    ));
    print(if walker.single {
        " through one dimension"
    } else {
        " through several dimensions"
    });
    print("; at point 2:");
    for c in walker.incidence.cells_at(2) {
        print(format_args!(" {c}"));
    }
    print("\n");
}

// The words of the points that touch part 1, if there are no more than the array has room for. Cells 7 to 10 bear the numbers 1 to 4. The lists of the
// chains are spoiled first: `add_points` turns them round itself.
fn show_points(m: &[u8], owners: &[u8], incidence: &mut Incidence)
    requires { Turned m.now incidence.old }
{
    let sought = sought_of(m, 1);
    let counts = count_points(sought, owners, incidence.view());
    let mut b = [0u8; 34];
    if 4 < counts.points || 7 < counts.cells {
        return;
    }
    incidence.last.fill(0);
    let end = add_points(
        &mut b,
        0,
        m,
        sought,
        false,
        owners,
        &[0, 0, 0, 0, 0, 0, 0, 1, 2, 3, 4],
        &mut incidence.cell,
        &mut incidence.prev,
        &mut incidence.last,
    );
    print(format_args!("points of part 1, {end} words:"));
    print_values(Form::Words, &b, 17);
    print("\n");
}

fn show(m: &[u8], stencil: &[u8])
    requires { Accepted m.now × (bad10 (top m.now) stencil.now ≡ false) }
{
    let mut incidence = Incidence {
        cell: [0; RECORD_PLACES],
        prev: [0; RECORD_PLACES],
        last: [0; ELEMENT_PLACES],
    };
    incidence.invert(m);
    show_walker(m, stencil, &incidence);
    show_points(m, &OWNERS, &mut incidence);
}

fn answer(m: &[u8], stencil: &[u8]) {
    if let Err(refusal) = test_mesh(m) {
        print(format_args!("the mesh is refused: {}\n", u32::from(refusal)));
    } else if bad_stencil(top_of(m), stencil) {
        print("the stencil is refused\n");
    } else {
        show(m, stencil);
    }
}

fn main() {
    answer(&five_cells(), &STENCIL);
}

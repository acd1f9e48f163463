// The words of the model: the number of elements, a mask of true names for each, the number of edges, each edge as from, role, to.
// Each section is written into the part of the buffer behind the last.
// What is right stands in alc's specs/Model.antt; specs/Laid.antt says what the writer starts from and how it lays the words. The elements come from order, their edges from edges.
#![tactic(auto)]

pub mod elements; // the elements, and the words of their masks and edges

ghost use Rattle.std.specs.Prelude.{◌≡◌, ◌++◌, ◌+◌, ◌*◌, ◌<◌, ◌≤◌, length, take, drop};
ghost use Rattle.alc.specs.Lists.{each};
ghost use Rattle.plan.specs.Plan.{plan_sheet};
ghost use Rattle.edges.specs.Keys.{keys_of, edge_of};
ghost use Rattle.model.specs.Laid.{mask_of};

use alc::{Label, Line, Mark};
use edges::keys::Edges;
use edges::role_and_to;
use plan::Plan;

// The names of the lines that hold, as a mask.
fn names_of(plan: &Plan, l: Label) -> u32
    ensures { result ≡ mask_of (plan_sheet plan.now) l }
{
    let mut mask = 0u32;
    for i in 0..plan.line_count() {
        if let Line::Name(a) = plan.line(i) {
            if l.has(Mark::Holds(i)).found {
                mask |= 1 << a;
            }
        }
    }
    mask
}

// The edges from element x, behind the word `start`; says where the next word goes.
fn write_from(out: &mut [u32], start: usize, x: usize, edges: Edges) -> usize
    requires { (start + 3 * edges.count ≤ length out.old) × (x < 4294967296) }
    ensures { (result ≡ start + 3 * edges.count) × (out.new ≡ take start out.old ++ (each (edge_of x) (keys_of edges) ++ drop (start + 3 * edges.count) out.old)) }
{
    let mut at = start;
    for key in edges.as_slice() {
        let (role, to) = role_and_to(*key);
        out[at] = x as u32;
        out[at + 1] = role;
        out[at + 2] = to;
        at += 3;
    }
    at
}

// The edges from one element as keys, role · 8192 + to, each once and ascending: so sorted by role and to.
// What is right stands in alc's specs/Model.antt; specs/Keys.antt says what the keys stand for. Needs no verdict, so that it rests on tableau and not on engine.
#![tactic(auto)]

pub mod keys; // the edges of one element as ascending keys
pub mod recorded; // the seeds of a model among the records

ghost use Rattle.std.specs.Prelude.{◌≡◌, [], map, ◌/◌, ◌%◌, ◌<◌, ◌≤◌, length};
ghost use Rattle.alc.specs.Lists.{Distinct};
ghost use Rattle.alc.specs.Sheet.{role_count};
ghost use Rattle.alc.specs.Seeds.{asks};
ghost use Rattle.plan.specs.Plan.{plan_sheet};
ghost use Rattle.tableau.specs.Records.{recorded};
ghost use Rattle.tableau.specs.Joints.{joint_of, Fit};
ghost use Rattle.edges.specs.Keys.{SeedsIn, key_of, keys_of, insert_keys, ask_key, edge_of, edges_from};

use crate::keys::Edges;
use crate::recorded::Recorded;
use alc::Label;
use plan::Plan;
use seeds::asks;
use tableau::labels::Labels;

// The edge along a role to an element, as its key, one word whose order is that of role and element: there are at most 8 + 4096 elements.
#[inline]
fn key(role: u32, to: usize) -> u32
    requires { (role < role_count) × (to < 8192) }
    ensures { result ≡ key_of role to }
{
    role * 8192 + to as u32
}

// The role and the element of a key.
#[inline]
pub fn role_and_to(key: u32) -> (u32, u32)
    ensures { (result.0 ≡ key / 8192) × (result.1 ≡ key % 8192) }
{
    (key / 8192, key % 8192)
}

// From an asker to its seeds.
fn asked_edges(plan: &Plan, l: Label, seeds: Recorded) -> Edges
    ensures { (result.count ≤ 32) × (keys_of result ≡ insert_keys [] (map (ask_key seeds.entry) (asks (plan_sheet plan.now) l))) }
{
    let mut edges = Edges::new();
    for ask in asks(plan, l) {
        edges = edges.with(key(ask.role, seeds.element(ask.seed)));
    }
    edges
}

// The edges from an element: from an asker to its seeds, and along the role assertions.
pub fn edges_of(plan: &Plan, j: Labels, x: usize, l: Label, records: &[u64], seeds: usize) -> Edges
    requires fit { Fit (plan_sheet plan.now) j }
    requires seeds_in_bounds { (seeds ≤ length records.now) × (seeds ≤ 4096) }
    requires seeds_in { SeedsIn (plan_sheet plan.now) l (recorded seeds records.now) }
    requires distinct { Distinct (recorded seeds records.now) }
    ensures { map (edge_of x) (keys_of result) ≡ edges_from (plan_sheet plan.now) (joint_of j) (recorded seeds records.now) l x }
{
    let recorded = Recorded {
        records,
        seeds,
        first: j.count,
    };
    let mut edges = asked_edges(plan, l, recorded);
    for e in 0..plan.role_count() {
        let asserted = plan.role_assertion(e);
        if asserted.source == x {
            edges = edges.with(key(asserted.role, asserted.target));
        }
    }
    edges
}

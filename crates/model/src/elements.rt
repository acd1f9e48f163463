// The elements of a model: a joint label's individuals, and behind them its seeds, which are the first of the records. It rests on order and edges.
// The fields are lent together, with the fact that they fit; specs/Laid.antt says which (Ready), specs/Elements.antt what their labels and edges are.
ghost use Rattle.plan.specs.Plan.{plan_sheet};
ghost use Rattle.model.specs.Laid.{Ready};

use crate::{names_of, write_from};
use alc::Label;
use edges::edges_of;
use edges::keys::Edges;
use order::label_at;
use plan::Plan;
use tableau::labels::Labels;

#[derive(Clone, Copy)]
pub struct Elements<'a> {
    pub plan: &'a Plan,
    pub joint: Labels,
    pub records: &'a [u64],
    pub marks: &'a [u8],
    pub used: usize,
    pub seeds: usize,
    pub ghost ready: { ∥ Ready (plan_sheet plan.now) joint used seeds records.now marks.now ∥₁ },
}

impl<'a> Elements<'a> {
    ghost use Rattle.std.specs.Prelude.{◌≡◌, ◌++◌, ◌+◌, ◌*◌, ◌<◌, ◌≤◌, length, map, drop};
    ghost use Rattle.alc.specs.Lists.{each};
    ghost use Rattle.edges.specs.Keys.{keys_of, edge_of};
    ghost use Rattle.model.specs.Laid.{masks_of, words_of};
    ghost use Rattle.model.specs.Elements.{sheet_in, count_in, labels_in, seeds_in, label_in, row_in, edges_in};

    // How many there are.
    #[inline]
    pub fn count(&self) -> usize
        ensures { (result ≡ count_in self.now) × (result ≤ 4104) × (result ≡ length (labels_in self.now) + length (seeds_in self.now)) }
    {
        self.joint.count + self.seeds
    }

    // The label of element x.
    fn label(&self, x: usize) -> Label
        requires { x < count_in self.now }
        ensures { result ≡ label_in self.now x }
    {
        label_at(
            self.plan,
            self.joint,
            self.records,
            self.marks,
            self.used,
            x,
        )
    }

    // The edges from element x.
    fn edges(&self, x: usize) -> Edges
        requires { x < count_in self.now }
        ensures { map (edge_of x) (keys_of result) ≡ row_in self.now x }
    {
        edges_of(
            self.plan,
            self.joint,
            x,
            self.label(x),
            self.records,
            self.seeds,
        )
    }

    // How many edges there are.
    pub fn count_edges(&self) -> usize
        ensures { (result ≡ length (edges_in self.now)) × (result ≤ 196992) }
    {
        let mut total = 0;
        for x in 0..self.count() {
            total += self.edges(x).count;
        }
        total
    }

    // A mask for each element.
    fn write_masks(&self, out: &mut [u32])
        requires { count_in self.now ≤ length out.old }
        ensures { out.new ≡ masks_of (sheet_in self.now) (labels_in self.now) (seeds_in self.now) ++ drop (count_in self.now) out.old }
    {
        for x in 0..self.count() {
            out[x] = names_of(self.plan, self.label(x));
        }
    }

    // The edges of all elements.
    fn write_edges(&self, out: &mut [u32])
        requires { 3 * length (edges_in self.now) ≤ length out.old }
        ensures { out.new ≡ each (λ e. e) (edges_in self.now) ++ drop (3 * length (edges_in self.now)) out.old }
    {
        let mut at = 0;
        for x in 0..self.count() {
            at = write_from(out, at, x, self.edges(x));
        }
    }

    // The whole model, which fits its buffer: its parts are lent in turn, as document 01 has it.
    pub fn write(&self, out: &mut [u32], edges: usize)
        requires edges_value { edges ≡ length (edges_in self.now) }
        requires edges_in_bounds { 2 + self.now.joint.count + self.now.seeds + 3 * edges ≤ length out.old }
        ensures { out.new ≡ words_of (sheet_in self.now) (labels_in self.now) (seeds_in self.now) ++ drop (2 + self.now.joint.count + self.now.seeds + 3 * edges) out.old }
    {
        let elements = self.count();
        out[0] = elements as u32;
        self.write_masks(&mut out[1..]);
        let at = 1 + elements;
        out[at] = edges as u32;
        let behind = at + 1;
        self.write_edges(&mut out[behind..]);
    }
}

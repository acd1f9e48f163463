// A joint label as the code has it: the labels of up to eight individuals. It stands in a file of its own, since specs/Joints.antt names it and it has a fact.
// An array and a count, since memory is fixed and each branch goes on with a copy.
ghost use Rattle.std.specs.Prelude.{◌≤◌};

use alc::Label;

#[derive(Clone, Copy)]
pub struct Labels {
    pub labels: [Label; 8],
    pub count: usize,
    pub ghost small: { count ≤ 8 },
}

impl Labels {
    ghost use Rattle.std.specs.Prelude.{◌≡◌, ◌<◌, slice_set};
    ghost use Rattle.alc.specs.Settle.{label};
    ghost use Rattle.tableau.specs.Joints.{joint_of};

    #[inline]
    pub fn as_slice(&self) -> &[Label]
        ensures { result.now ≡ joint_of self.now }
    {
        &self.labels[..self.count]
    }

    // The label of individual a.
    #[inline]
    pub fn label(&self, a: usize) -> Label
        requires { a < self.now.count }
        ensures { result ≡ label (joint_of self.now) a }
    {
        self.labels[a]
    }

    // With another label at a.
    #[inline]
    pub fn with(mut self, a: usize, l: Label) -> Self
        requires { a < self.count }
        ensures { (joint_of result ≡ slice_set (joint_of self) a l) × (result.count ≡ self.count) }
    {
        self.labels[a] = l;
        self
    }
}

// The next step of a joint label: the lowest individual with a step of its own, else the first role assertion that adds a mark.
// That a joint label fits a plan's sheet stays a clause (Fit): neither has the other.
ghost use Rattle.std.specs.Prelude.{◌≡◌, ◌<◌, false, [], ◌∷◌, map, length};
ghost use Rattle.alc.specs.Lists.{first, each, up_to};
ghost use Rattle.alc.specs.Sheet.{role_assertion};
ghost use Rattle.alc.specs.Settle.{moves_of, push, adds, closes};
ghost use Rattle.plan.specs.Plan.{plan_sheet};
ghost use Rattle.tableau.specs.Joints.{joint_of, Fit, own_step, step_of, next_of};

use crate::clash::clash_test;
use crate::labels::Labels;
use alc::{Label, Mark};
use plan::Plan;
use seeds::pushed_along;
use steps::step::{Choice, next_choice};

// A clash; nothing more; marks for an individual; or one of two marks for an individual, the first branch first.
// Judging tells these four apart. The looks below answer one of them too, and not an Option of two others that it would be made of.
#[derive(Clone, Copy)]
pub enum JointStep {
    Clashed,
    Settled,
    Onward(usize, Label),
    Split(usize, Mark, Mark),
}

// Some label clashes.
fn joint_clashes(plan: &Plan, j: &Labels) -> bool
    ensures { result ≡ closes (plan_sheet plan.now) (joint_of j.now) }
{
    j.as_slice().iter().any(|l| clash_test(plan, *l).found)
}

// What an individual chooses, as a step of the joint label.
#[inline]
fn own_step(a: usize, choice: Choice) -> JointStep
    ensures { result ≡ own_step a choice }
{
    match choice {
        Choice::Every(marks) => JointStep::Onward(a, marks),
        Choice::Either(m, n) => JointStep::Split(a, m, n),
    }
}

// The lowest individual with a step of its own.
fn lowest_step(plan: &Plan, j: &Labels) -> JointStep
    requires { closes (plan_sheet plan.now) (joint_of j.now) ≡ false }
    ensures { result ≡ step_of (plan_sheet plan.now) (joint_of j.now) (first (adds (plan_sheet plan.now) (joint_of j.now)) (each (moves_of (plan_sheet plan.now)) (up_to (length (joint_of j.now))))) }
{
    for (a, l) in j.as_slice().iter().enumerate() {
        if let Some(choice) = next_choice(plan, *l) {
            return own_step(a, choice);
        }
    }
    JointStep::Settled
}

// What the role assertion e still pushes.
fn push_at(plan: &Plan, j: &Labels, e: usize) -> JointStep
    requires fit { Fit (plan_sheet plan.now) j.now }
    requires e_in_bounds { e < length (plan_sheet plan.now).roles }
    ensures { result ≡ step_of (plan_sheet plan.now) (joint_of j.now) (first (adds (plan_sheet plan.now) (joint_of j.now)) (push (role_assertion (plan_sheet plan.now) e) ∷ [])) }
{
    let along = plan.role_assertion(e);
    let marks = pushed_along(plan, along.role, j.label(along.source));
    let l = j.label(along.target);
    if l.join(marks) == l {
        return JointStep::Settled;
    }
    JointStep::Onward(along.target, marks)
}

// The first role assertion that still adds a mark.
fn push_step(plan: &Plan, j: &Labels) -> JointStep
    requires { Fit (plan_sheet plan.now) j.now }
    ensures { result ≡ step_of (plan_sheet plan.now) (joint_of j.now) (first (adds (plan_sheet plan.now) (joint_of j.now)) (map push (plan_sheet plan.now).roles)) }
{
    for e in 0..plan.role_count() {
        let next = push_at(plan, j, e);
        match next {
            JointStep::Settled => {}
            _ => {
                return next;
            }
        }
    }
    JointStep::Settled
}

// One step of the joint label.
pub fn next_step(plan: &Plan, j: Labels) -> JointStep
    requires { Fit (plan_sheet plan.now) j }
    ensures { result ≡ next_of (plan_sheet plan.now) (joint_of j) }
{
    if joint_clashes(plan, &j) {
        return JointStep::Clashed;
    }
    let next = lowest_step(plan, &j);
    match next {
        JointStep::Settled => push_step(plan, &j),
        _ => next,
    }
}

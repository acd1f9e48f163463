// The seeds that a settled label asks for, one after the other. Which list that is says alc's specs/Seeds.antt (asks); specs/Left.antt says what is left of it.
ghost use Rattle.plan.specs.Plan.{plan_sheet};
ghost use Rattle.seeds.specs.Asks.{AreLines};

use alc::walk::Members;
use alc::{Ask, Label};
use plan::Plan;

// The lines of the sheet that may ask for something and are left to look at.
#[derive(Clone, Copy)]
pub struct Asks<'a> {
    pub plan: &'a Plan,
    pub label: Label,
    pub left: Members,
    pub ghost lines: { AreLines (plan_sheet plan.now) left.left },
}

impl Iterator for Asks<'_> {
    type Item = Ask;

    ghost use Rattle.std.specs.Iterator.{YieldsFirst, item_count};
    ghost use Rattle.seeds.specs.Left.{asks_left};

    ghost next_gives = { YieldsFirst asks_left };

    ghost remaining = { item_count asks_left };

    #[inline]
    fn next(&mut self) -> Option<Ask> {
        while let Some(i) = self.left.next() {
            if let Some(ask) = crate::asked_at(self.plan, self.label, i) {
                return Some(ask);
            }
        }
        None
    }
}

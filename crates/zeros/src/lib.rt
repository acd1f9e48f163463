// Zeros: a lent buffer of numbers of any width, cleared. It rests on nothing.
// std's `fill` is not called: it clones, and of a `T: Copy` alone no contract says that a clone is the value itself.
#![tactic(auto)]

ghost use Rattle.std.specs.Prelude.{◌≡◌, length, replicate};

// Writes into each place the one value that a width has where none is given: at u64, u32, u16 and u8 that is 0.
pub fn clear<T: Copy + Default>(buffer: &mut [T])
    ensures { (zero : T) → ((x : T) → T.is_default x → x ≡ zero) → buffer.new ≡ replicate (length buffer.old) zero }
{
    for place in buffer.iter_mut() {
        *place = T::default();
    }
}

// A program: questions as ask answers them, from another stored input, a long stream of them. It rests on questions, which says how they are asked.
#![tactic(auto)]

fn main(rt: HostRuntime) {
    questions::answer_all(&rt, &mut rt.stdin());
}

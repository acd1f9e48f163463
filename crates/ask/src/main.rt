// A program: the questions about sheets on standard input, answered on standard output. It rests on questions, which says how they are asked.
#![tactic(auto)]

fn main(rt: HostRuntime) {
    questions::answer_all(&rt, &mut rt.stdin());
}

// to_bytes: the bytes of a sheet, read as text from standard input.
#![tactic(auto)]

fn main(rt: HostRuntime) {
    let mut input = [0u8; text_programs::SEEN];
    let mut buffer = [0u8; text_programs::OUTPUT];
    text_streams::run(rt.stdin(), &mut input, &mut buffer, text_programs::to_bytes);
}

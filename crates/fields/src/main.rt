// The program `fields`: a case as text on standard input, one call a line, to its fields on standard output. With the argument `--text` the other way:
// fields to lines, and what is no call as a comment.
#![tactic(auto)]

use feed::Streams;

// What the program is asked for.
#[derive(Clone, Copy)]
enum Task {
    ToFields,
    ToText,
    Unknown,
}

// Whether the first argument is `--text`.
fn first_is_text(rt: HostRuntime) -> bool {
    let mut arg = [0u8; 16];
    let n = feed::read_word(rt, 1, &mut arg);
    &arg[..n] == b"--text".as_slice()
}

// No argument or `--text` alone; the program's own name counts as one.
fn asked(rt: HostRuntime) -> Task {
    match feed::word_count(rt) {
        0 | 1 => Task::ToFields,
        2 if first_is_text(rt) => Task::ToText,
        _ => Task::Unknown,
    }
}

// Text to fields.
fn write_fields(streams: Streams) {
    let mut buf = [0u8; 131072];
    let mut out = [0u8; 65536];
    to_fields::run(streams, &mut buf, &mut out);
}

// Fields to text.
fn write_text(streams: Streams) {
    let mut buf = [0u8; 131072];
    let mut out = [0u8; 335882];
    to_text::run(streams, &mut buf, &mut out);
}

// How the program is called, on standard error.
fn tell_usage(streams: Streams) {
    feed::tell(streams, b"usage: fields [--text] < FILE\n");
}

fn main(rt: HostRuntime) {
    let streams = feed::streams_of(rt);
    match asked(rt) {
        Task::ToFields => write_fields(streams),
        Task::ToText => write_text(streams),
        Task::Unknown => tell_usage(streams),
    }
}

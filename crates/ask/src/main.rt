// The program `ask` (document 02, C-16): a question about the case whose fields stand on standard input. `ask requirement` prints the requirement. Where there is no
// answer, the reason stands on standard error.
#![tactic(auto)]

use asking::{Question, Told};
use feed::Streams;

// The question that the arguments ask; the program's own name counts as one of them.
fn read_words(rt: HostRuntime) -> Question {
    let count = feed::word_count(rt);
    if count == 0 {
        return Question::Unknown;
    }
    let mut word = [0u8; 16];
    let n = feed::read_word(rt, 1, &mut word);
    asking::question_of(count - 1, &word[..n])
}

// The answer on standard output, or why there is none on standard error.
fn print(streams: Streams, told: Told, out: &[u8]) {
    if told.good {
        let _wrote = feed::flush(streams, out, told.len, b"ask: standard output");
    } else if told.len <= out.len() {
        feed::tell(streams, &out[..told.len]);
    }
}

fn main(rt: HostRuntime) {
    let mut buf = [0u8; 131072];
    let mut out = [0u8; 4096];
    let streams = feed::streams_of(rt);
    let told = asking::run(streams, read_words(rt), &mut buf, &mut out);
    print(streams, told, &out);
}

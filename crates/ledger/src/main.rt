// The program `ledger`: reads fields from standard input and prints the text of document 01.

#![tactic(auto)]

fn main(rt: HostRuntime) {
    stream::ledger_stream(feed::streams_of(rt));
}

// Writes the standard settings text, in the newest edition, to standard output: the way to start a `board.set`.
#![tactic(auto)]

use settings::Settings;
use std::process::ExitCode;

fn main(rt: HostRuntime) -> ExitCode {
    let mut text = [0u8; 4096];
    let s = Settings::standard();
    let _ = editions::write_text(&s, &mut text);
    let n = editions::text_length(&s);
    ending::finish(&rt, rt.write_all(&text[..n]))
}

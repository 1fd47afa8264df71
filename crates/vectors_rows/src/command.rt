//! Words that are a command, and words that aren't.

use nf_command::{Command, command_of};
use std::alloc::{AllocError, Global};
use std::test::Fail;

fn words_of(alloc: Global, line: &str) -> Result<Vec<String>, AllocError> {
    let mut words = Vec::new(alloc);
    for word in line.split('|') {
        words.push(String::from_str(alloc, word)?)?;
    }
    Ok(words)
}

// What the words of a line are, which stand between its bars.
fn kind(alloc: Global, line: &str) -> Result<&'static str, AllocError> {
    Ok(match command_of(alloc, &words_of(alloc, line)?)? {
        Some(Command::Batch) => "batch",
        Some(Command::Init(_)) => "init",
        Some(Command::Serve { connections: 1_000 }) => "serve 1000",
        Some(Command::Serve { .. }) => "serve",
        Some(Command::Sweep) => "sweep",
        Some(
            Command::Generate {
                seed: 7,
                count: 300,
            },
        ) => "generate 7 300",
        Some(Command::Generate { .. }) => "generate",
        None => "none",
    })
}

/// What words are, and behind the colon the words, between bars. One text, since a table of so many pairs takes a minute to prove.
const LINES: &str = "batch:batch
init:init|alice|alice-1|1073741824
init:init|é (2).txt|!|0
init:init|alice|~|1099511627776
init:init|a-|b-|10
none:
none:--help
none:-h
none:help
none:--
none:Batch
none:batch\x20
none:batch|
none:batch|batch
none:init
none:init|alice
none:init|alice|alice-1
none:init|alice|alice-1|5|
none:batch|alice|alice-1|5
none:init|-a|alice-1|5
none:init|alice|-1|5
none:init||alice-1|5
none:init|..|alice-1|5
none:init|a/b|alice-1|5
none:init|a\\b|alice-1|5
none:init|alice||5
none:init|alice|alice 1|5
none:init|alice|alice\x7f|5
none:init|alice|é|5
none:init|alice|alice-1|
none:init|alice|alice-1|00
none:init|alice|alice-1|01
none:init|alice|alice-1|+1
none:init|alice|alice-1|-1
none:init|alice|alice-1| 1
none:init|alice|alice-1|1_000
none:init|alice|alice-1|0x1
none:init|alice|alice-1|1099511627777
none:init|alice|alice-1|18446744073709551616
none:init|--|alice|alice-1|5
none:init|alice|alice-1|5|--
none:init|alice|alice-1|--|5
none:init|--name|alice|alice-1|5
none:init|--help
none:init|help
sweep:sweep
none:Sweep
none:sweep\x20
none:sweep|
none:sweep|sweep
none:sweep|x
none:sweep|--
none:sweep|alice|alice-1|5
generate 7 300:generate|7|300
generate:generate|0|1
generate:generate|18446744073709551615|100000
none:generate
none:generate|7
none:generate|7|300|1
none:generate|7|0
none:generate|7|100001
none:generate|18446744073709551616|1
none:generate|-1|1
none:generate|+1|1
none:generate|07|1
none:generate|7|01
none:generate||1
none:generate|7|
none:generate|--|7|300
none:Generate|7|300
serve 1000:serve
serve 1000:serve|--connections|1000
serve 1000:serve|--connections=1000
serve:serve|--connections|1
serve:serve|--connections=1000000
none:serve\x20
none:serve|
none:serve|1000
none:serve|--connections
none:serve|--connections=
none:serve|--connections|
none:serve|--connections|0
none:serve|--connections|1000001
none:serve|--connections=+1
none:serve|--connections=01
none:serve|--connections==1
none:serve|--connection|1
none:serve|--connections|1|
none:serve|--connections=1|1
none:serve|--
none:serve|--connections|1|--
none:serve|--connections=1|--
none:serve|--|--connections=1
none:serve|--connections|--|1
none:serve|--connections|--connections=1
none:serve|--connections=1|--connections=1
none:serve|--connections|-1
none:serve|-c|1
none:serve|--help
none:serve|-h
none:serve|help
none:serve|alice|alice-1|5
none:Serve|--connections|1
none:batch|--connections|1";

#[test]
fn reads_commands(rt: HostRuntime) -> Result<(), Fail> {
    for line in LINES.split('\n') {
        let (wanted, words) = line.split_once(':').ok_or("a colon")?;
        assert!(rt; kind(rt.alloc(), words)? == wanted, "at {words}");
    }
    let none: [String; 0] = [];
    assert!(rt; command_of(rt.alloc(), &none)?.is_none());
    Ok(())
}

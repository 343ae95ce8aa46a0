use crate::status::status_text;
use crate::top::run;
use mrp_types::Octets;
use outside::{MemSink, MemSource};
use std::alloc::Global;
use std::test::*;

// The lines of a round of three acceptors, and what is shown of its decision. `hi` is asked by client 0 as its number 1.
const FIRST: &str = "learn 1 0 0 1 0100010000000000000000010006010000026869\ndeliver 1 0 0\n\
    learn 2 0 0 1 0100010000000000000000010006010000026869\ndeliver 2 0 0\n\
    learn 0 0 0 1 0100010000000000000000010006010000026869\ndeliver 0 0 0\nend 2\n";

const LISTED: &str = "learn 1 0 0 1 0100010000000000000000010006010000026869\ndeliver 1 0 0\n\
    frame 2 n1 n2 4d520206000100000000000000000000000000000000010100140100010000000000000000010006010000026869\n\
    frame 9 none\nend 4\n";

// The same command on a ring whose coordinator is node 2.
const OTHER: &str = "frame 0 c0 n2 4d520201010000000000000000000000010006010000026869\n\
    learn 0 0 0 1 0100010000000000000000010006010000026869\ndeliver 0 0 0\n\
    frame 1 n2 n0 4d5202050002000000000000000003000000000000000000000000000000010100140100010000000000000000010006010000026869\n\
    end 4\n";

// Three nodes, each an acceptor of the one ring and a replica of the one partition.
const CONFIG: &str =
    "m = 1\nlambda = 0\ndelta = 1\nresend = 4\nsuspect = 16\nattempt = 8\ncheckpoint = 2\n\
    trim = 8\nwindow = 16\njournal = 1048576\n\
    node = [{ id = 0, address = \"127.0.0.1:7100\" }, { id = 1, address = \"127.0.0.1:7101\" },\
    { id = 2, address = \"127.0.0.1:7102\" }]\n\
    client = [{ id = 0, address = \"127.0.0.1:7200\" }, { id = 1, address = \"127.0.0.1:7201\" }]\n\
    ring = [{ id = 0, acceptors = [0, 1, 2] }]\n\
    partition = [{ id = 0, replicas = [0, 1, 2], rings = [0], home = 0, from = \"\", to = \"\",\
    logs = [0], trim_quorum = 2, recovery_quorum = 2 }]\n";

// What a run ended with: the number and the text of its status, and what it wrote.
#[derive(Drop, Debug)]
struct Ended {
    number: u8,
    text: Octets,
    lines: Octets,
}

// Which reads of the configuration and of the input fail, and which writes.
#[derive(Clone, Copy)]
struct Failing<'a> {
    config: &'a [u64],
    input: &'a [u64],
    out: &'a [u64],
}

const NONE: Failing<'static> = Failing {
    config: &[],
    input: &[],
    out: &[],
};

fn words(alloc: Global, text: &str) -> Result<Vec<String>, Fail> {
    let mut words = Vec::new(alloc);
    for word in text.split_whitespace() {
        words.push(String::from_str(alloc, word)?)?;
    }
    Ok(words)
}

fn source(alloc: Global, bytes: &[u8], fail: &[u64]) -> Result<MemSource, Fail> {
    Ok(MemSource::new(Octets::from_slice(alloc, bytes)?, fail.to_vec(alloc)?))
}

fn outcome(
    alloc: Global,
    command: &str,
    config: &str,
    schedule: &[u8],
    failing: Failing<'_>,
) -> Result<Ended, Fail> {
    let words = words(alloc, command)?;
    let mut config = source(alloc, config.as_bytes(), failing.config)?;
    let mut input = source(alloc, schedule, failing.input)?;
    let mut out = MemSink::new(alloc, failing.out.to_vec(alloc)?);
    let status = run(alloc, &words, &mut config, &mut input, &mut out);
    Ok(Ended {
        number: status.number(),
        text: status_text(alloc, &status)?,
        lines: Octets::from_slice(alloc, out.bytes())?,
    })
}

// The configuration with a piece of text in place of another.
fn edited(alloc: Global, old: &str, new: &str) -> Result<String, Fail> {
    let Some((before, after)) = CONFIG.split_once(old) else {
        return Err(Fail::new("nothing to write over"));
    };
    Ok(format!(in alloc; "{before}{new}{after}")?)
}

// Each outcome, a run a line: the words of the command; what is written over in the configuration, and by what; the input; which
// call fails; and behind ` => ` the number and the text of the status, and the lines. Bars part these, and a line feed within one is `\n`.
const CASES: &str = "\
    replay||||- => 0||end 0\\n\n\
    replay|||ask 0 append 0 6869\\nflow 100\\n|- => 0||@first\n\
    replay|||ask 0 append 0 6869\\nflow 2\\nlist 2\\nlist 9\\n|- => 0||@listed\n\
    replay|||ask 0 append 0 6869\\nlose 1\\nflow 100\\n|- => 0||end 3\\n\n\
    replay|acceptors = [0, 1, 2]|acceptors = [2, 0, 1]|ask 0 append 0 6869\\nlist 0\\nflow 2\\nlist 1\\n|- => 0||@other\n\
    replay|||flow x\\n|- => 3|input 1 number|\n\
    replay|||ask 0 append 9 61\\n|- => 3|input 1 route|\n\
    replay|||flow 1\\ntick all\\n|- => 3|input 2 word|\n\
    replay|||flow 1|- => 3|input 1 cut|\n\
    replay|||flow 0\\n|- => 3|input 1 range|\n\
    replay|||flow 1 \\n|- => 3|input 1 left|\n\
    replay|m = 1|m = 0|flow x\\n|- => 2|config 4 m|\n\
    replay|m = 1|m = 1\\ncolour = 1|flow x\\n|- => 2|config 10 colour|\n\
    replay|m = 1||flow x\\n|- => 2|config 2 m|\n\
    replay|trim_quorum = 2|trim_quorum = 1|flow x\\n|- => 2|config 7 0|\n\
    replay|to = \"\"|to = \"80\"|flow x\\n|- => 2|config 8 0|\n\
    replay|{ id = 1, a|{ id = 0, a|flow x\\n|- => 2|config 5 node.id 0|\n\
    replay|m = 1|=|flow x\\n|- => 2|config 1|\n\
    replay|lambda = 0|lambda = 1|flow x\\n|- => 2|config 13|\n\
    replay|replicas = [0, 1, 2]|replicas = [0, 1]|flow x\\n|- => 2|config 13|\n\
    replay|ring = [|ring = [{ id = 0, acceptors = [0, 1, 2] }, { id = 1, acceptors = [1] }]\\n#|flow x\\n|- => 2|config 13|\n\
    gen 1 0||||input => 0||\n\
    gen 1 3||||input => 0||flow 1000\\ntick all\\nflow 1000\\n\n\
    gen 18446744073709551615 2|lambda = 0|lambda = 1||input => 0||flow 1000\\ntick all\\n\n\
    gen 1 3|m = 1|=||- => 2|config 1|\n\
    replay|||ask 0 append 0 6869\\nflow 2\\nflow 1\\n|config => 4|source config|\n\
    replay|||ask 0 append 0 6869\\nflow 2\\nflow 1\\n|input 1 => 4|source input|\n\
    replay|||ask 0 append 0 6869\\nflow 2\\nflow 1\\n|out => 5|sink|\n\
    gen 1 3||||config => 4|source config|\n\
    gen 1 3||||out => 5|sink|\n\
    ||||- => 1|usage|\n\
    replay x||||- => 1|usage|\n\
    Replay||||- => 1|usage|\n\
    audit||||- => 1|usage|\n\
    gen||||- => 1|usage|\n\
    gen 1||||- => 1|usage|\n\
    gen 1 2 3||||- => 1|usage|\n\
    gen 01 3||||- => 1|usage|\n\
    gen x 3||||- => 1|usage|\n\
    gen 1 1048577||||- => 1|usage|\n\
    gen 18446744073709551616 3||||- => 1|usage|\n\
    Gen 1 3||||- => 1|usage|";

// What stands before the first bar, and what behind it.
fn cut(text: &str) -> (&str, &str) {
    text.split_once('|').unwrap_or((text, ""))
}

fn failing_of(word: &str) -> Failing<'static> {
    match word {
        "config" => Failing {
            config: &[0],
            ..NONE
        },
        "input" => Failing {
            input: &[0],
            ..NONE
        },
        "input 1" => Failing {
            input: &[1],
            ..NONE
        },
        "out" => Failing { out: &[0], ..NONE },
        _ => NONE,
    }
}

// The lines that a word stands for, or themselves.
fn lines_of(alloc: Global, text: &str) -> Result<String, Fail> {
    let lines = match text {
        "@first" => FIRST,
        "@listed" => LISTED,
        "@other" => OTHER,
        _ => text,
    };
    Ok(lines.replace(alloc, "\\n", "\n")?)
}

// Runs what a line before its number says.
fn ended_by(alloc: Global, run: &str) -> Result<Ended, Fail> {
    let (command, rest) = cut(run);
    let (old, rest) = cut(rest);
    let (new, rest) = cut(rest);
    let (input, failing) = cut(rest);
    let config = edited(alloc, old, lines_of(alloc, new)?.as_str())?;
    let input = lines_of(alloc, input)?;
    outcome(
        alloc,
        command,
        config.as_str(),
        input.as_bytes(),
        failing_of(failing),
    )
}

// Whether it ended with the number, the text and the lines of the line's end.
fn ends_so(alloc: Global, ended: &Ended, wanted: &str) -> Result<bool, Fail> {
    let (number, rest) = cut(wanted);
    let (text, lines) = cut(rest);
    let lines = lines_of(alloc, lines)?;
    Ok(
        number.parse::<u8>() == Ok(ended.number)
            && ended.text.bytes() == text.as_bytes()
            && ended.lines.bytes() == lines.as_bytes(),
    )
}

#[test]
fn runs_and_their_ends(rt: HostRuntime) -> Result<(), Fail> {
    for line in CASES.lines() {
        let Some((run, wanted)) = line.split_once(" => ") else {
            return Err(Fail::new("no status"));
        };
        let ended = ended_by(rt.alloc(), run)?;
        assert!(rt; ends_so(rt.alloc(), &ended, wanted)?, "{line}: {ended:?}");
    }
    Ok(())
}

// So often this text.
fn repeated(alloc: Global, text: &[u8], times: u32) -> Result<Octets, Fail> {
    let mut all = Octets::new(alloc);
    for _turn in 0..times {
        all.extend(text)?;
    }
    Ok(all)
}

// A configuration of 1,048,576 bytes is read, and one of a byte more is not looked into.
#[test]
fn one_byte_past_the_most(rt: HostRuntime) -> Result<(), Fail> {
    let alloc = rt.alloc();
    let mut config = String::from_str(alloc, CONFIG)?;
    config.push('#')?;
    for _turn in config.len()..1_048_576 {
        config.push('x')?;
    }
    let ended = outcome(alloc, "replay", config.as_str(), b"", NONE)?;
    assert!(rt; ended.number == 0 && ended.lines.bytes() == b"end 0\n".as_slice());
    config.push('x')?;
    let ended = outcome(alloc, "replay", config.as_str(), b"", NONE)?;
    assert!(rt; ended.number == 2 && ended.text.bytes() == b"config 11".as_slice());
    Ok(())
}

#[test]
fn one_event_past_the_most(rt: HostRuntime) -> Result<(), Fail> {
    let alloc = rt.alloc();
    let events = repeated(alloc, b"list 0\n", 1_048_577)?;
    let ended = outcome(alloc, "replay", CONFIG, events.bytes(), NONE)?;
    assert!(rt; ended.number == 3 && ended.text.bytes() == b"input 1048577 toomany".as_slice());
    Ok(())
}

// A line of 13 bytes for each event: the first piece ends with the 5,042nd of them.
#[test]
fn a_write_fails_in_mid_stream(rt: HostRuntime) -> Result<(), Fail> {
    let alloc = rt.alloc();
    let schedule = repeated(alloc, b"list 0\n", 6_000)?;
    let one_write = Failing { out: &[1], ..NONE };
    for (failing, number, lines, end) in [
        (one_write, 5, 5_042, ""),
        (NONE, 0, 6_000, "end 6000\n"),
    ] {
        let ended = outcome(alloc, "replay", CONFIG, schedule.bytes(), failing)?;
        assert_eq!(rt; ended.number, number);
        let mut want = repeated(alloc, b"frame 0 none\n", lines)?;
        want.extend(end.as_bytes())?;
        assert!(rt; ended.lines.bytes() == want.bytes());
    }
    Ok(())
}

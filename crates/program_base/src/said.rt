// What is said on standard error of a call that ended early, and its exit status.

use crate::files::read_file;
use crate::stop::Stop;
use command_line::{Shown, show_advice};
use complaint_text::{
    NO_COMMAND, TOO_LONG_TOGETHER, ask_for_words, dump_text, first_paragraph, has_great_number,
    limits_text, value_of, waiver_text,
};
use shown_text::shown_text;
use std::process::ExitCode;
use vcd_read::VcdFlaw;
use vrace::Fault;

// The exit status of a refusal: 1 where an item of a report isn't true.
fn refused_code(fault: Fault) -> ExitCode {
    match fault {
        Fault::FalseEnd(_) => ExitCode::from(1),
        Fault::FalseRace(_) => ExitCode::from(1),
        Fault::FalseHead => ExitCode::from(1),
        _ => ExitCode::from(2),
    }
}

// Says a text on standard error, as a terminal may be shown it.
fn say_bytes(rt: &HostRuntime, words: &[u8]) {
    let Ok(text) = shown_text(rt.alloc(), words) else {
        return;
    };
    if let Ok(words) = str::from_utf8(&text) {
        let _ = eprint!(rt; "{words}");
    }
}

// The same of a text in UTF-8.
fn say(rt: &HostRuntime, words: &str) {
    say_bytes(rt, words.as_bytes());
}

// Says which numbers are out of their limits.
fn say_limits(rt: &HostRuntime, words: &[String]) {
    if let Ok(text) = limits_text(rt.alloc(), words) {
        say(rt, text.as_str());
    }
}

// What is said of a fault of these words beside what its files say.
fn say_fault(rt: &HostRuntime, words: &[String], fault: Fault) {
    match fault {
        Fault::Memory(_) => {}
        Fault::OutOfLimit => say_limits(rt, words),
        Fault::TooLong => say(rt, TOO_LONG_TOGETHER),
        _ => show_advice(rt, fault.number()),
    }
}

// What is said of this line of the file of this name, which is no waiver.
fn say_waiver_of(rt: &HostRuntime, name: &str, line: u64) {
    let Ok(text) = read_file(rt, name) else {
        return;
    };
    if let Ok(said) = waiver_text(rt.alloc(), name, &text, line) {
        say(rt, said.as_str());
    }
}

// What is said of a line that is no waiver.
fn say_waiver(rt: &HostRuntime, words: &[String], line: u64) {
    if let Some(name) = value_of(words, "--waive") {
        say_waiver_of(rt, name, line);
    }
}

// What is said of a line at which a text stops being a dump.
fn say_dump(rt: &HostRuntime, words: &[String], line: u64, flaw: VcdFlaw) {
    let Some(name) = value_of(words, "--vcd") else {
        return;
    };
    if let Ok(said) = dump_text(rt.alloc(), name, line, flaw) {
        say(rt, said.as_str());
    }
}

// Says what is told of a fault, or what can be said of it where nothing is.
fn say_told(rt: &HostRuntime, words: &[String], fault: Fault, text: &[u8]) {
    if text.is_empty() {
        say_fault(rt, words, fault);
    } else {
        say_bytes(rt, text);
    }
}

// What is said behind the line of a refusal where no words are asked for: what is wrong with the command line.
fn say_wrong_words(rt: &HostRuntime, words: &[String], stop: &Stop) {
    match stop {
        Stop::Usage(reason) => {
            let _ = eprintln!(rt; "{reason}");
        }
        Stop::NoTime => say_limits(rt, words),
        _ => {}
    }
}

// What is said behind the line of a refusal.
fn say_more(rt: &HostRuntime, words: &[String], stop: &Stop) {
    match stop {
        Stop::NoMemory => {}
        Stop::Usage(_) | Stop::NoTime => say_wrong_words(rt, words, stop),
        Stop::BadWaiver(line) => say_waiver(rt, words, *line),
        Stop::BadDump(line, flaw) => say_dump(rt, words, *line, *flaw),
        Stop::Refused(fault) => say_fault(rt, words, *fault),
        Stop::Told(fault, text) => say_told(rt, words, *fault, text),
    }
}

// The line of a refusal, and the exit status.
fn say_line(rt: &HostRuntime, stop: &Stop) -> ExitCode {
    let _ = match stop {
        Stop::Usage(_) | Stop::NoTime => eprintln!(rt; "vrace: usage"),
        Stop::NoMemory => eprintln!(rt; "vrace: E901"),
        Stop::BadWaiver(line) => eprintln!(rt; "vrace: E506 at {line}"),
        Stop::BadDump(line, _) => eprintln!(rt; "vrace: E505 at {line}"),
        Stop::Told(fault, text) if !text.is_empty() => {
            // The words have the place.
            let number = fault.number();
            eprintln!(rt; "vrace: E{number}")
        }
        Stop::Refused(fault) | Stop::Told(fault, _) => eprintln!(rt; "vrace: {fault}"),
    };
    match stop {
        Stop::Refused(fault) | Stop::Told(fault, _) => refused_code(*fault),
        _ => ExitCode::from(2),
    }
}

/// Says what ended the call of these words, by a line, and more where words are asked for. The answer is the exit status.
pub fn say_stop(rt: &HostRuntime, words: &[String], stop: &Stop) -> ExitCode {
    let code = say_line(rt, stop);
    if ask_for_words(words) {
        say_more(rt, words, stop);
    } else {
        say_wrong_words(rt, words, stop);
    }
    code
}

// Says which word of a command line was wrong.
fn say_word(rt: &HostRuntime, shown: &Shown) {
    if let Ok(text) = shown.text(rt.alloc()) {
        say(rt, first_paragraph(text.as_str()));
        say(rt, "\n");
    }
}

// Says all that is known of it.
fn say_all(rt: &HostRuntime, shown: &Shown) {
    if let Ok(text) = shown.text(rt.alloc()) {
        say(rt, text.as_str());
    }
}

// Says why these words don't parse, by a line, and which word it was; all that is known of it where words are asked for.
fn say_usage(rt: &HostRuntime, words: &[String], shown: &Shown) {
    let _ = eprintln!(rt; "vrace: usage");
    if ask_for_words(words) {
        say_all(rt, shown);
    } else {
        say_word(rt, shown);
    }
    if shown.is_of_no_command() {
        say(rt, NO_COMMAND);
    }
}

/// Says why these words don't parse; the answer is the exit status. A number of more than 64 bits is none that doesn't parse, but one out
/// of its limit (E404).
pub fn say_unparsed(rt: &HostRuntime, words: &[String], shown: &Shown) -> Result<ExitCode, Stop> {
    if shown.is_of_value() && has_great_number(words) {
        return Err(Stop::Refused(Fault::OutOfLimit));
    }
    say_usage(rt, words, shown);
    Ok(ExitCode::from(2))
}

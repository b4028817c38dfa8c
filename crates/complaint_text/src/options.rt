// Options as they stand in the words of a call, before these are parsed.

/// What is said of a word that is no command.
pub const NO_COMMAND: &str =
    "    instead: vrace races FILE.. finds races, vrace replay FILE.. runs the files once; vrace --help has all commands\n";

/// What a fault of the command line says first: that is up to its first empty line.
pub fn first_paragraph(text: &str) -> &str {
    match text.split_once("\n\n") {
        None => text.trim_end(),
        Some((first, _)) => first,
    }
}

// Whether these words name a command that tells people.
fn tell_people(words: &[String]) -> bool {
    match words.get(1) {
        None => false,
        Some(command) => {
            let command = command.as_str();
            command == "races" || command == "match" || command == "drive"
        }
    }
}

/// Whether a refusal is told in words: those of `races`, of `match` and of `drive` are, and each behind `--words`.
pub fn ask_for_words(words: &[String]) -> bool {
    for word in words {
        if word.as_str() == "--words" {
            return true;
        }
        if word.as_str() == "--" {
            return tell_people(words);
        }
    }
    tell_people(words)
}

// What stands behind `=` where the word is the option with its value.
fn joined_value<'a>(word: &'a str, option: &str) -> Option<&'a str> {
    word.strip_prefix(option)?.strip_prefix("=")
}

/// The value of the option, if it is given.
pub fn value_of<'a>(words: &'a [String], option: &str) -> Option<&'a str> {
    let mut is_next = false;
    for word in words {
        let word = word.as_str();
        if is_next {
            return Some(word);
        }
        if word == "--" {
            return None;
        }
        if let Some(value) = joined_value(word, option) {
            return Some(value);
        }
        is_next = word == option;
    }
    None
}

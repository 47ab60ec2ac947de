//! Sentences about bytes with which no word, number or mark begins, most of which come from other languages.

use crate::habit::{CHOICE, LOOP, SORT};

/// Gives the sentence about bytes, the first of which begins nothing, after these in its line.
pub fn byte_sentence(before: &[u8], bytes: &[u8]) -> &'static str {
    match bytes {
        [b'!', ..] => exclamation_sentence(before, bytes),
        [b'&', ..] => "`and` joins two Booleans, and not `&` or `&&`.",
        [b'|', ..] => "`or` joins two Booleans, and not `|` or `||`.",
        [b'.', ..] => dot_sentence(bytes),
        [b'"', ..] => {
            "A character string is written `'..'`, and can follow `comment` alone: no sort has it as a value."
        }
        [b'{', ..] => brace_sentence(before),
        [b'}', ..] => NO_BRACES,
        [b'[' | b']', ..] => {
            "There are no brackets and no arrays. Numbers of instances and values are in parentheses, as in `process \
             P(2);`, a condition follows `provided`, and each place of an array has a variable of its own."
        }
        [b'#', b'0'..=b'9', ..] => {
            "The number of an instance is for scripts alone. Name a process after `to`, or a Pid: `sender`, \
             `offspring`, `parent`, or a variable of the sort Pid."
        }
        [b'#', ..] => {
            "A comment is written `/* .. */` here. `#` begins one in a script alone, which follows a line that is \
             `%script`."
        }
        [b'%', ..] => percent_sentence(bytes),
        [b'_', ..] if ends_with_word(before) => {
            "A number has decimal digits alone: no unit, no `_`, and no other base."
        }
        [b'_', ..] => "A name begins with a letter, and not with `_`.",
        [b'^', ..] => "There are no powers and no operators on bits.",
        [b'?', ..] => {
            "There is no `?`. A `decision` chooses between transitions, and an input takes a signal: `input a(n);`."
        }
        [b'\\', ..] => "There is no backslash. A line goes on in the next one without a mark.",
        [128..=255, ..] => character_sentence(bytes),
        _ => {
            "No word, number or mark begins with this byte. Take it away, or put it into a comment, `/* .. */`."
        }
    }
}

/// Gives the sentence about a brace that opens, after these bytes in its line.
fn brace_sentence(before: &[u8]) -> &'static str {
    let line = before.trim_ascii_start();
    let len = line
        .iter()
        .take_while(|byte| byte.is_ascii_alphabetic())
        .count();
    match line.get(..len).unwrap_or(&[]) {
        b"if" | b"switch" | b"case" | b"match" => CHOICE,
        b"while" | b"for" | b"loop" | b"do" | b"repeat" => LOOP,
        b"struct" | b"enum" | b"record" | b"typedef" => SORT,
        _ => NO_BRACES,
    }
}

const NO_BRACES: &str =
    "There are no braces. What opens with a keyword such as `process` or `state` closes with `endprocess` or \
     `endstate`, and a task has commas: `task n := 1, m := 2;`.";

/// Gives the sentence about an exclamation mark.
fn exclamation_sentence(before: &[u8], bytes: &[u8]) -> &'static str {
    match bytes {
        [b'!', b'=', ..] => "`/=` asks whether two values differ, and not `!=`.",
        [b'!', b' ' | b'\t', ..] => NO_SENDING,
        _ if ends_with_word(before) => NO_SENDING,
        _ => "`not` turns a Boolean round, and not `!`.",
    }
}

/// Gives the sentence about a dot.
fn dot_sentence(bytes: &[u8]) -> &'static str {
    match bytes {
        [b'.', b'.', ..] => "A range has a colon, as in `(1:5):`, and not `..`.",
        [b'.', b'0'..=b'9', ..] => {
            "Numbers are whole: a Time and a Duration count ticks. Write a whole number, and let a tick be shorter."
        }
        _ => {
            "There is no dot: nothing has fields or methods, and a name has only letters, digits and `_`. A signal is \
             sent by `output a to p;`."
        }
    }
}

/// Gives the sentence about a character beyond ASCII.
fn character_sentence(bytes: &[u8]) -> &'static str {
    match bytes {
        [0xEF, 0xBB, 0xBF, ..] => {
            "The file has a byte order mark here, three bytes that no editor shows. Save it without one."
        }
        [0xC2, 0xA0, ..] =>
            "This is a no-break space, which only looks like a blank. Write a blank.",
        [0xE2, 0x80, 0x98..=0x9F, ..] => {
            "This is a curly quote. A character string has straight ones, `'..'`, and can follow `comment` alone."
        }
        [0xE2, 0x80, 0x90..=0x95, ..] =>
            "This is a dash, which only looks like a minus. Write `-`.",
        [0xE2, 0x89, 0xA0, ..] => "`/=` asks whether two values differ.",
        [0xE2, 0x89, 0xA4 | 0xA5, ..] => "`<=` and `>=` compare two values.",
        _ => {
            "A name has ASCII letters, digits and `_`. Other letters can be in a comment, `/* .. */`, or in a \
             character string."
        }
    }
}

const NO_SENDING: &str =
    "`!` neither takes a field nor sends: there are no structures, so write a variable for each field, and a signal is \
     sent by `output a to p;`.";

/// Whether the last of these bytes belongs to a word or a number.
fn ends_with_word(before: &[u8]) -> bool {
    match before.last() {
        Some(byte) => byte.is_ascii_alphanumeric() || *byte == b')',
        None => false,
    }
}

/// Gives the sentence about a percent sign, which begins the line before a script.
fn percent_sentence(bytes: &[u8]) -> &'static str {
    let word = bytes.get(1..).unwrap_or(&[]).trim_ascii_start();
    let begins_script = match word.get(..6) {
        Some(word) => word.eq_ignore_ascii_case(b"script"),
        None => false,
    };
    if begins_script {
        "A script follows a line that is `%script` and nothing else: in lower case, with no blank in it, before \
         it or after it."
    } else {
        "The remainder of a division is `mod` or `rem`, and not `%`."
    }
}

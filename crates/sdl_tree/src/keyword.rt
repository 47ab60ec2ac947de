//! The spellings of marks and of the words that the language leaves out: all in lower or all in upper case, a
//! literal also with a capital first letter. Every other word is a name. A word is compared only with the spellings
//! that begin as it does, since each word of a text is looked up here.

ghost use Rattle.std.specs.Prelude.{◌≡◌, ◌||◌, [], ◌∷◌, map, option_map};
ghost use Rattle.std.specs.List.{find};
ghost use Rattle.std.specs.Str.{bytes_eq};
ghost use Rattle.sdl_tree.specs.Keyword.{entry, both_cases, keyword_in, lower_case_in, keyword_found, sign_found, left_out_found, is_reserved, AreKeywordsFrom, AreLeftOutFrom};

use crate::mark::{Case, Mark};

/// A keyword or a literal, and how it is spelled.
#[derive(Clone, Copy, PartialEq, Eq)]
pub struct Keyword {
    pub mark: Mark,
    pub case: Case,
}

/// A keyword in one of its spellings.
type Entry = (Mark, Case, &'static str);

/// How many letters a keyword has at least, and a word that is left out. Many names have fewer.
const FEWEST_LETTERS: usize = 2;

/// The keyword or literal that a word spells, if any, with its spelling.
#[tactic(auto, using(crate::proofs::ShortWords::no_short_keyword))]
pub fn keyword_of(word: &[u8]) -> Option<Keyword>
    ensures { result ≡ keyword_found word.now }
{
    if word.len() < FEWEST_LETTERS {
        return None;
    }
    keyword_by_first(word)
}

/// The keyword or literal that a word spells, looked up by the first letter.
#[tactic(auto, unfolding(crate::specs::Keyword::keyword_found))]
fn keyword_by_first(word: &[u8]) -> Option<Keyword>
    ensures { result ≡ keyword_found word.now }
{
    let (first, _) = word.split_first()?;
    keyword_in(keywords_from(*first), word)
}

/// The keyword of the first entry with this text.
fn keyword_in(table: &[Entry], word: &[u8]) -> Option<Keyword>
    ensures { result ≡ keyword_in (map entry table.now) word.now }
{
    match entry_of(table, word) {
        Some((mark, case, _)) => Some(Keyword { mark, case }),
        None => None,
    }
}

fn entry_of(table: &[Entry], word: &[u8]) -> Option<Entry>
    ensures { result ≡ find (λ e. bytes_eq e.2.now word.now) table.now }
{
    table
        .iter()
        .copied()
        .find(|(_, _, text)| text.as_bytes() == word)
}

/// The mark of other characters that these bytes are, if they are one.
#[tactic(auto, using(crate::proofs::ShortWords::no_long_sign))]
pub fn sign_of(bytes: &[u8]) -> Option<Mark>
    ensures { result ≡ sign_found bytes.now }
{
    match bytes {
        [only] => single_sign(*only),
        [first, second] => double_sign(*first, *second),
        _ => None,
    }
}

/// The mark of one byte that this is, if it is one.
#[tactic(auto, unfolding(crate::specs::Keyword::sign_found))]
fn single_sign(byte: u8) -> Option<Mark>
    ensures { result ≡ sign_found (byte ∷ []) }
{
    match byte {
        b'(' => Some(Mark::Open),
        b')' => Some(Mark::Close),
        b',' => Some(Mark::Comma),
        b';' => Some(Mark::Semicolon),
        b':' => Some(Mark::Colon),
        b'=' => Some(Mark::Equal),
        b'<' => Some(Mark::Less),
        b'>' => Some(Mark::Greater),
        b'+' => Some(Mark::Plus),
        b'-' => Some(Mark::Minus),
        b'*' => Some(Mark::Asterisk),
        b'/' => Some(Mark::Slash),
        _ => None,
    }
}

/// The mark of two bytes that these are, if they are one.
#[tactic(auto, unfolding(crate::specs::Keyword::sign_found))]
fn double_sign(first: u8, second: u8) -> Option<Mark>
    ensures { result ≡ sign_found (first ∷ second ∷ []) }
{
    match (first, second) {
        (b':', b'=') => Some(Mark::Assign),
        (b'/', b'=') => Some(Mark::NotEqual),
        (b'<', b'=') => Some(Mark::LessOrEqual),
        (b'>', b'=') => Some(Mark::GreaterOrEqual),
        (b'=', b'>') => Some(Mark::Implies),
        _ => None,
    }
}

/// The word in lower case, if it is one that the standard reserves for what is left out here.
#[tactic(auto, using(crate::proofs::ShortWords::no_short_left_out))]
pub fn left_out(word: &[u8]) -> Option<&'static str>
    ensures { option_map (λ t. t.now) result ≡ left_out_found word.now }
{
    if word.len() < FEWEST_LETTERS {
        return None;
    }
    left_out_by_first(word)
}

/// The same, looked up by the first letter.
#[tactic(auto, unfolding(crate::specs::Keyword::left_out_found))]
fn left_out_by_first(word: &[u8]) -> Option<&'static str>
    ensures { option_map (λ t. t.now) result ≡ left_out_found word.now }
{
    let (first, _) = word.split_first()?;
    lower_of(left_out_from(*first), word)
}

/// The lower case of the first entry with this text in lower or in upper case.
fn lower_of(table: &[(&'static str, &'static str)], word: &[u8]) -> Option<&'static str>
    ensures { option_map (λ t. t.now) result ≡ lower_case_in (map both_cases table.now) word.now }
{
    match cases_of(table, word) {
        Some((lower, _)) => Some(lower),
        None => None,
    }
}

fn cases_of(
    table: &[(&'static str, &'static str)],
    word: &[u8],
) -> Option<(&'static str, &'static str)>
    ensures { result ≡ find (λ e. bytes_eq e.0.now word.now || bytes_eq e.1.now word.now) table.now }
{
    table.iter().copied().find(|(lower, upper)| lower.as_bytes() == word
        || upper.as_bytes() == word)
}

/// Whether a word is reserved, so that no name is spelled like it.
#[tactic(auto, unfolding(crate::specs::Keyword::is_reserved))]
pub fn is_reserved(word: &[u8]) -> bool
    ensures { result ≡ is_reserved word.now }
{
    keyword_of(word).is_some() || left_out(word).is_some()
}

/// The keywords, and behind them the literals, in the spellings that begin with this byte.
#[tactic(auto, unfolding(crate::specs::Keyword::keyword_found))]
fn keywords_from(first: u8) -> &'static [Entry]
    ensures { AreKeywordsFrom first (map entry result.now) }
{
    match first {
        b'a' => &[
            (Mark::Active, Case::Lower, "active"),
            (Mark::And, Case::Lower, "and"),
        ],
        b'A' => &[
            (Mark::Active, Case::Upper, "ACTIVE"),
            (Mark::And, Case::Upper, "AND"),
        ],
        b'b' => &[(Mark::Block, Case::Lower, "block")],
        b'B' => &[(Mark::Block, Case::Upper, "BLOCK")],
        b'c' => &[
            (Mark::Channel, Case::Lower, "channel"),
            (Mark::Comment, Case::Lower, "comment"),
            (Mark::Connect, Case::Lower, "connect"),
            (Mark::Connection, Case::Lower, "connection"),
            (Mark::Create, Case::Lower, "create"),
        ],
        b'C' => &[
            (Mark::Channel, Case::Upper, "CHANNEL"),
            (Mark::Comment, Case::Upper, "COMMENT"),
            (Mark::Connect, Case::Upper, "CONNECT"),
            (Mark::Connection, Case::Upper, "CONNECTION"),
            (Mark::Create, Case::Upper, "CREATE"),
        ],
        b'd' => &[
            (Mark::Dcl, Case::Lower, "dcl"),
            (Mark::Decision, Case::Lower, "decision"),
        ],
        b'D' => &[
            (Mark::Dcl, Case::Upper, "DCL"),
            (Mark::Decision, Case::Upper, "DECISION"),
        ],
        b'e' => &[
            (Mark::Else, Case::Lower, "else"),
            (Mark::EndBlock, Case::Lower, "endblock"),
            (Mark::EndChannel, Case::Lower, "endchannel"),
            (Mark::EndConnection, Case::Lower, "endconnection"),
            (Mark::EndDecision, Case::Lower, "enddecision"),
            (Mark::EndProcess, Case::Lower, "endprocess"),
            (Mark::EndState, Case::Lower, "endstate"),
            (Mark::EndSystem, Case::Lower, "endsystem"),
            (Mark::Env, Case::Lower, "env"),
        ],
        b'E' => &[
            (Mark::Else, Case::Upper, "ELSE"),
            (Mark::EndBlock, Case::Upper, "ENDBLOCK"),
            (Mark::EndChannel, Case::Upper, "ENDCHANNEL"),
            (Mark::EndConnection, Case::Upper, "ENDCONNECTION"),
            (Mark::EndDecision, Case::Upper, "ENDDECISION"),
            (Mark::EndProcess, Case::Upper, "ENDPROCESS"),
            (Mark::EndState, Case::Upper, "ENDSTATE"),
            (Mark::EndSystem, Case::Upper, "ENDSYSTEM"),
            (Mark::Env, Case::Upper, "ENV"),
        ],
        b'f' => &[
            (Mark::Fpar, Case::Lower, "fpar"),
            (Mark::From, Case::Lower, "from"),
            (Mark::False, Case::Lower, "false"),
        ],
        b'F' => &[
            (Mark::Fpar, Case::Upper, "FPAR"),
            (Mark::From, Case::Upper, "FROM"),
            (Mark::False, Case::Upper, "FALSE"),
            (Mark::False, Case::Capital, "False"),
        ],
        b'i' => &[(Mark::Input, Case::Lower, "input")],
        b'I' => &[(Mark::Input, Case::Upper, "INPUT")],
        b'j' => &[(Mark::Join, Case::Lower, "join")],
        b'J' => &[(Mark::Join, Case::Upper, "JOIN")],
        b'm' => &[(Mark::Mod, Case::Lower, "mod")],
        b'M' => &[(Mark::Mod, Case::Upper, "MOD")],
        b'n' => &[
            (Mark::NextState, Case::Lower, "nextstate"),
            (Mark::NoDelay, Case::Lower, "nodelay"),
            (Mark::Not, Case::Lower, "not"),
            (Mark::Now, Case::Lower, "now"),
            (Mark::Null, Case::Lower, "null"),
        ],
        b'N' => &[
            (Mark::NextState, Case::Upper, "NEXTSTATE"),
            (Mark::NoDelay, Case::Upper, "NODELAY"),
            (Mark::Not, Case::Upper, "NOT"),
            (Mark::Now, Case::Upper, "NOW"),
            (Mark::Null, Case::Upper, "NULL"),
            (Mark::Null, Case::Capital, "Null"),
        ],
        b'o' => &[
            (Mark::Offspring, Case::Lower, "offspring"),
            (Mark::Or, Case::Lower, "or"),
            (Mark::Output, Case::Lower, "output"),
        ],
        b'O' => &[
            (Mark::Offspring, Case::Upper, "OFFSPRING"),
            (Mark::Or, Case::Upper, "OR"),
            (Mark::Output, Case::Upper, "OUTPUT"),
        ],
        b'p' => &[
            (Mark::Parent, Case::Lower, "parent"),
            (Mark::Priority, Case::Lower, "priority"),
            (Mark::Process, Case::Lower, "process"),
            (Mark::Provided, Case::Lower, "provided"),
        ],
        b'P' => &[
            (Mark::Parent, Case::Upper, "PARENT"),
            (Mark::Priority, Case::Upper, "PRIORITY"),
            (Mark::Process, Case::Upper, "PROCESS"),
            (Mark::Provided, Case::Upper, "PROVIDED"),
        ],
        b'r' => &[
            (Mark::Rem, Case::Lower, "rem"),
            (Mark::Reset, Case::Lower, "reset"),
        ],
        b'R' => &[
            (Mark::Rem, Case::Upper, "REM"),
            (Mark::Reset, Case::Upper, "RESET"),
        ],
        b's' => &[
            (Mark::Save, Case::Lower, "save"),
            (Mark::SelfPid, Case::Lower, "self"),
            (Mark::Sender, Case::Lower, "sender"),
            (Mark::Set, Case::Lower, "set"),
            (Mark::Signal, Case::Lower, "signal"),
            (Mark::SignalList, Case::Lower, "signallist"),
            (Mark::SignalSet, Case::Lower, "signalset"),
            (Mark::Start, Case::Lower, "start"),
            (Mark::State, Case::Lower, "state"),
            (Mark::Stop, Case::Lower, "stop"),
            (Mark::Synonym, Case::Lower, "synonym"),
            (Mark::System, Case::Lower, "system"),
        ],
        b'S' => &[
            (Mark::Save, Case::Upper, "SAVE"),
            (Mark::SelfPid, Case::Upper, "SELF"),
            (Mark::Sender, Case::Upper, "SENDER"),
            (Mark::Set, Case::Upper, "SET"),
            (Mark::Signal, Case::Upper, "SIGNAL"),
            (Mark::SignalList, Case::Upper, "SIGNALLIST"),
            (Mark::SignalSet, Case::Upper, "SIGNALSET"),
            (Mark::Start, Case::Upper, "START"),
            (Mark::State, Case::Upper, "STATE"),
            (Mark::Stop, Case::Upper, "STOP"),
            (Mark::Synonym, Case::Upper, "SYNONYM"),
            (Mark::System, Case::Upper, "SYSTEM"),
        ],
        b't' => &[
            (Mark::Task, Case::Lower, "task"),
            (Mark::Timer, Case::Lower, "timer"),
            (Mark::To, Case::Lower, "to"),
            (Mark::True, Case::Lower, "true"),
        ],
        b'T' => &[
            (Mark::Task, Case::Upper, "TASK"),
            (Mark::Timer, Case::Upper, "TIMER"),
            (Mark::To, Case::Upper, "TO"),
            (Mark::True, Case::Upper, "TRUE"),
            (Mark::True, Case::Capital, "True"),
        ],
        b'w' => &[(Mark::With, Case::Lower, "with")],
        b'W' => &[(Mark::With, Case::Upper, "WITH")],
        b'x' => &[(Mark::Xor, Case::Lower, "xor")],
        b'X' => &[(Mark::Xor, Case::Upper, "XOR")],
        _ => &[],
    }
}

/// The words that are left out and begin with this letter, in lower and in upper case.
#[tactic(auto, unfolding(crate::specs::Keyword::left_out_found))]
fn left_out_from(first: u8) -> &'static [(&'static str, &'static str)]
    ensures { AreLeftOutFrom first (map both_cases result.now) }
{
    match first {
        b'a' | b'A' => &[("alternative", "ALTERNATIVE"), ("any", "ANY")],
        b'c' | b'C' => &[("call", "CALL")],
        b'e' | b'E' => &[
            ("exception", "EXCEPTION"),
            ("exceptionhandler", "EXCEPTIONHANDLER"),
            ("export", "EXPORT"),
            ("exported", "EXPORTED"),
        ],
        b'g' | b'G' => &[("gate", "GATE")],
        b'i' | b'I' => &[
            ("if", "IF"),
            ("import", "IMPORT"),
            ("imported", "IMPORTED"),
            ("inherits", "INHERITS"),
            ("interface", "INTERFACE"),
        ],
        b'm' | b'M' => &[("macro", "MACRO"), ("macrodefinition", "MACRODEFINITION")],
        b'n' | b'N' => &[("newtype", "NEWTYPE"), ("none", "NONE")],
        b'p' | b'P' => &[("package", "PACKAGE"), ("procedure", "PROCEDURE")],
        b'r' | b'R' => &[
            ("referenced", "REFERENCED"),
            ("remote", "REMOTE"),
            ("return", "RETURN"),
            ("revealed", "REVEALED"),
        ],
        b's' | b'S' => &[
            ("select", "SELECT"),
            ("service", "SERVICE"),
            ("signalroute", "SIGNALROUTE"),
            ("substructure", "SUBSTRUCTURE"),
            ("syntype", "SYNTYPE"),
        ],
        b't' | b'T' => &[("this", "THIS"), ("type", "TYPE")],
        b'v' | b'V' => &[
            ("via", "VIA"),
            ("view", "VIEW"),
            ("viewed", "VIEWED"),
            ("virtual", "VIRTUAL"),
        ],
        _ => &[],
    }
}

//! The words that Z.120 keeps for itself.

ghost use Rattle.std.specs.Prelude.{◌≡◌};
ghost use Rattle.std.specs.List.{list_any};
ghost use Rattle.std.specs.Str.{str_eq_ignore_ascii_case};
ghost use Rattle.view_text.specs.Keyword.{is_keyword};

/// The keywords, in the order of the alphabet.
static KEYWORDS: [&str; 103] = [
    "action",
    "after",
    "all",
    "alt",
    "as",
    "before",
    "begin",
    "block",
    "bottom",
    "by",
    "call",
    "channel",
    "comment",
    "concurrent",
    "condition",
    "connect",
    "create",
    "data",
    "decomposed",
    "def",
    "empty",
    "end",
    "endafter",
    "endbefore",
    "endconcurrent",
    "endexpr",
    "endinstance",
    "endmethod",
    "endmsc",
    "endsuspension",
    "env",
    "equalpar",
    "escape",
    "exc",
    "expr",
    "external",
    "finalized",
    "found",
    "from",
    "gate",
    "in",
    "inf",
    "inherits",
    "inline",
    "inst",
    "instance",
    "int_boundary",
    "label",
    "language",
    "left",
    "loop",
    "lost",
    "method",
    "mfail",
    "msc",
    "mscdocument",
    "mscexpr",
    "msg",
    "nestable",
    "nonnestable",
    "offset",
    "opt",
    "or",
    "order",
    "origin",
    "otherwise",
    "out",
    "par",
    "parenthesis",
    "process",
    "receive",
    "redefined",
    "reference",
    "related",
    "replyin",
    "replyout",
    "reset",
    "right",
    "seq",
    "service",
    "set",
    "shared",
    "start",
    "starttimer",
    "stop",
    "stoptimer",
    "subst",
    "suspension",
    "system",
    "text",
    "time",
    "timeout",
    "timer",
    "to",
    "top",
    "undef",
    "using",
    "utilities",
    "variables",
    "via",
    "virtual",
    "when",
    "wildcards",
];

/// Whether a name is a keyword of Z.120, in whatever case: in older editions of Z.120 letters are the same in both.
pub fn is_keyword(name: &str) -> bool
    ensures { result ≡ is_keyword name.now }
{
    is_one_of(&KEYWORDS, name)
}

fn is_one_of(words: &[&str], name: &str) -> bool
    ensures { result ≡ list_any (λ word. str_eq_ignore_ascii_case word.now name.now) words.now }
{
    words.iter().any(|word| is_same_word(word, name))
}

fn is_same_word(word: &str, name: &str) -> bool
    ensures { result ≡ str_eq_ignore_ascii_case word.now name.now }
{
    word.eq_ignore_ascii_case(name)
}

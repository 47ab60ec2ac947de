//! The marks: what the grammar fixes, which is each keyword, each literal and each mark of other characters.

ghost use Rattle.std.specs.Prelude.{◌≡◌, Some};
ghost use Rattle.sdl_tree.specs.Mark as spec;

use std::fmt;

/// A keyword, a literal or a mark of other characters.
#[derive(Clone, Copy, Debug, PartialEq, Eq)]
pub enum Mark {
    Active,
    And,
    Block,
    Channel,
    Comment,
    Connect,
    Connection,
    Create,
    Dcl,
    Decision,
    Else,
    EndBlock,
    EndChannel,
    EndConnection,
    EndDecision,
    EndProcess,
    EndState,
    EndSystem,
    Env,
    Fpar,
    From,
    Input,
    Join,
    Mod,
    NextState,
    NoDelay,
    Not,
    Now,
    Offspring,
    Or,
    Output,
    Parent,
    Priority,
    Process,
    Provided,
    Rem,
    Reset,
    Save,
    SelfPid,
    Sender,
    Set,
    Signal,
    SignalList,
    SignalSet,
    Start,
    State,
    Stop,
    Synonym,
    System,
    Task,
    Timer,
    To,
    With,
    Xor,

    True,
    False,
    Null,

    /// `:=`
    Assign,
    /// `/=`
    NotEqual,
    /// `<=`
    LessOrEqual,
    /// `>=`
    GreaterOrEqual,
    /// `=>`
    Implies,
    /// `(`
    Open,
    /// `)`
    Close,
    /// `,`
    Comma,
    /// `;`
    Semicolon,
    /// `:`
    Colon,
    /// `=`
    Equal,
    /// `<`
    Less,
    /// `>`
    Greater,
    /// `+`
    Plus,
    /// `-`
    Minus,
    /// `*`
    Asterisk,
    /// `/`
    Slash,
}

/// How a keyword is spelled: in lower case, in upper case, or (a literal) with a capital first letter. Every other mark
/// has one spelling, `Lower`.
#[derive(Clone, Copy, PartialEq, Eq)]
pub enum Case {
    Lower,
    Upper,
    Capital,
}

impl Mark {
    /// The mark as it is written in this spelling.
    pub fn spelled(self, case: Case) -> &'static str
        ensures { result.now ≡ spec.spelled self case }
    {
        match case {
            Case::Lower => self.text(),
            Case::Upper => self.in_upper_case(),
            Case::Capital => self.with_capital(),
        }
    }

    /// The mark as it is written: words in lower case.
    pub fn text(self) -> &'static str
        ensures { result.now ≡ spec.text self }
    {
        match self {
            Mark::Active => "active",
            Mark::And => "and",
            Mark::Block => "block",
            Mark::Channel => "channel",
            Mark::Comment => "comment",
            Mark::Connect => "connect",
            Mark::Connection => "connection",
            Mark::Create => "create",
            Mark::Dcl => "dcl",
            Mark::Decision => "decision",
            Mark::Else => "else",
            Mark::EndBlock => "endblock",
            Mark::EndChannel => "endchannel",
            Mark::EndConnection => "endconnection",
            Mark::EndDecision => "enddecision",
            Mark::EndProcess => "endprocess",
            Mark::EndState => "endstate",
            Mark::EndSystem => "endsystem",
            Mark::Env => "env",
            Mark::Fpar => "fpar",
            Mark::From => "from",
            Mark::Input => "input",
            Mark::Join => "join",
            Mark::Mod => "mod",
            Mark::NextState => "nextstate",
            Mark::NoDelay => "nodelay",
            Mark::Not => "not",
            Mark::Now => "now",
            Mark::Offspring => "offspring",
            Mark::Or => "or",
            Mark::Output => "output",
            Mark::Parent => "parent",
            Mark::Priority => "priority",
            Mark::Process => "process",
            Mark::Provided => "provided",
            Mark::Rem => "rem",
            Mark::Reset => "reset",
            Mark::Save => "save",
            Mark::SelfPid => "self",
            Mark::Sender => "sender",
            Mark::Set => "set",
            Mark::Signal => "signal",
            Mark::SignalList => "signallist",
            Mark::SignalSet => "signalset",
            Mark::Start => "start",
            Mark::State => "state",
            Mark::Stop => "stop",
            Mark::Synonym => "synonym",
            Mark::System => "system",
            Mark::Task => "task",
            Mark::Timer => "timer",
            Mark::To => "to",
            Mark::With => "with",
            Mark::Xor => "xor",
            Mark::True => "true",
            Mark::False => "false",
            Mark::Null => "null",
            Mark::Assign => ":=",
            Mark::NotEqual => "/=",
            Mark::LessOrEqual => "<=",
            Mark::GreaterOrEqual => ">=",
            Mark::Implies => "=>",
            Mark::Open => "(",
            Mark::Close => ")",
            Mark::Comma => ",",
            Mark::Semicolon => ";",
            Mark::Colon => ":",
            Mark::Equal => "=",
            Mark::Less => "<",
            Mark::Greater => ">",
            Mark::Plus => "+",
            Mark::Minus => "-",
            Mark::Asterisk => "*",
            Mark::Slash => "/",
        }
    }

    fn in_upper_case(self) -> &'static str
        ensures { result.now ≡ spec.in_upper_case (spec.text self) }
    {
        match self {
            Mark::Active => "ACTIVE",
            Mark::And => "AND",
            Mark::Block => "BLOCK",
            Mark::Channel => "CHANNEL",
            Mark::Comment => "COMMENT",
            Mark::Connect => "CONNECT",
            Mark::Connection => "CONNECTION",
            Mark::Create => "CREATE",
            Mark::Dcl => "DCL",
            Mark::Decision => "DECISION",
            Mark::Else => "ELSE",
            Mark::EndBlock => "ENDBLOCK",
            Mark::EndChannel => "ENDCHANNEL",
            Mark::EndConnection => "ENDCONNECTION",
            Mark::EndDecision => "ENDDECISION",
            Mark::EndProcess => "ENDPROCESS",
            Mark::EndState => "ENDSTATE",
            Mark::EndSystem => "ENDSYSTEM",
            Mark::Env => "ENV",
            Mark::Fpar => "FPAR",
            Mark::From => "FROM",
            Mark::Input => "INPUT",
            Mark::Join => "JOIN",
            Mark::Mod => "MOD",
            Mark::NextState => "NEXTSTATE",
            Mark::NoDelay => "NODELAY",
            Mark::Not => "NOT",
            Mark::Now => "NOW",
            Mark::Offspring => "OFFSPRING",
            Mark::Or => "OR",
            Mark::Output => "OUTPUT",
            Mark::Parent => "PARENT",
            Mark::Priority => "PRIORITY",
            Mark::Process => "PROCESS",
            Mark::Provided => "PROVIDED",
            Mark::Rem => "REM",
            Mark::Reset => "RESET",
            Mark::Save => "SAVE",
            Mark::SelfPid => "SELF",
            Mark::Sender => "SENDER",
            Mark::Set => "SET",
            Mark::Signal => "SIGNAL",
            Mark::SignalList => "SIGNALLIST",
            Mark::SignalSet => "SIGNALSET",
            Mark::Start => "START",
            Mark::State => "STATE",
            Mark::Stop => "STOP",
            Mark::Synonym => "SYNONYM",
            Mark::System => "SYSTEM",
            Mark::Task => "TASK",
            Mark::Timer => "TIMER",
            Mark::To => "TO",
            Mark::With => "WITH",
            Mark::Xor => "XOR",
            Mark::True => "TRUE",
            Mark::False => "FALSE",
            Mark::Null => "NULL",
            sign => sign.text(),
        }
    }

    /// A literal with a capital first letter, and every other mark as `text` has it.
    fn with_capital(self) -> &'static str
        ensures { result.now ≡ spec.with_capital self }
    {
        match self {
            Mark::True => "True",
            Mark::False => "False",
            Mark::Null => "Null",
            other => other.text(),
        }
    }
}

/// Writes the mark's text.
impl fmt::Display for Mark {
    ghost output = { λ m. Some (spec.text m) };

    fn fmt<W: fmt::Write>(&self, f: &mut fmt::Formatter<W>) -> fmt::Result {
        f.write_str(self.text())
    }
}

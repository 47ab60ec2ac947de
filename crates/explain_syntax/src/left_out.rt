//! Sentences about constructs of the standard that this language leaves out, and what stands for them where something
//! does.

/// Gives the sentence about a word that is left out, in lower case. `text` is a character string, and `provided`
/// follows the end of a priority input.
pub fn left_out_sentence(word: &str) -> &'static str {
    match word {
        "text" => "A character string can follow `comment` alone: no sort has it as a value.",
        "provided" => {
            "can't follow a priority input, which has no condition. Make it an input with a condition, or ask \
             by a decision."
        }
        "signalroute" | "gate" => {
            "isn't part of this language. A `channel` leads to processes too, in a block or in the system, with the \
             name of the process as its end."
        }
        "procedure" | "call" | "return" | "remote" => {
            "isn't part of this language, which has no procedures. A connection, to which joins lead, shares a part of \
             transitions, and these end with `nextstate`, `stop` or `join`."
        }
        "type" => {
            "isn't part of this language. A system, a block and a process have no types: write each where it is, as in \
             `process P(3);` for three instances."
        }
        "newtype" | "syntype" => {
            "isn't part of this language. The sorts are Integer, Natural, Boolean, Pid, Time and Duration, and a \
             synonym names a constant."
        }
        "export" | "exported" | "import" | "imported" | "reveal" | "revealed" | "view" | "viewed" =>
            { "isn't part of this language. A process tells others its values by signals." }
        "service" | "substructure" | "package" | "interface" => {
            "isn't part of this language. A system has blocks and processes, and a block has processes."
        }
        _ => left_out_in_process(word),
    }
}

/// Gives the sentence about a word of what a process does.
fn left_out_in_process(word: &str) -> &'static str {
    match word {
        "via" => {
            "isn't part of this language. An output goes along the channels that carry its signal, or `to` a \
             process or a Pid."
        }
        "none" | "any" => {
            "isn't part of this language, in which nothing happens by chance. Let the environment send a signal by \
             the script."
        }
        "if" | "alternative" | "select" => {
            "isn't part of this language. A `decision` chooses: `decision n = 0; (true): stop; else: nextstate -; \
             enddecision;`."
        }
        "this" => "isn't part of this language. Name the process itself.",
        "referenced" => {
            "isn't part of this language. Write the block or the process where it is defined."
        }
        _ => "isn't part of this language. No word of the standard that is left out can be a name.",
    }
}

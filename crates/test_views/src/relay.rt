//! A sender that makes keepers: a signal that is taken, one that is gone, one that waits, and one to nobody.

/// `found` is a keyword of Z.120.
pub static RELAY: &str = "system Relay;
signal go, note(Integer), found;

process Sender;
  timer Again := 2;
  start;
    create Keeper;
    output note(1) to offspring;
    set(Again);
    nextstate waiting;
  state waiting;
    input found;
      nextstate waiting;
    input Again;
      output note(2) to offspring;
      nextstate waiting;
    input go;
      create Keeper;
      output found to offspring;
      create Keeper;
      output found to offspring;
      nextstate waiting;
  endstate waiting;
endprocess Sender;

process Keeper (0, 1);
  dcl number, last Integer;
  start;
    nextstate keeping;
  state keeping;
    input note(number);
      task last := number;
      output found to parent;
      stop;
    save found;
  endstate keeping;
endprocess Keeper;
endsystem Relay;
";

pub static SCRIPT: &str = "3 go\n";

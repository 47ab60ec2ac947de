//! More instances and transitions than a chart has.

/// One sends a signal to itself for ever, and 101 others do nothing.
pub static CROWD: &str = "system Crowd;
signal again;

process Runner;
  start;
    output again to self;
    nextstate running;
  state running;
    input again;
      output again to self;
      nextstate -;
  endstate running;
endprocess Runner;

process Looker (101, 101);
  start;
    nextstate looking;
  state looking;
  endstate looking;
endprocess Looker;
endsystem Crowd;
";

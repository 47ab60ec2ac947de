//! Specifications of the worked rows.

/// Twenty processes that create each other and pass a signal on.
pub const CHAIN: &str =
    "system R; signal token(Integer); process Root (1, 1); dcl n Integer; start; create Node(19, self); output token(0) to offspring; nextstate w; state w; input token(n); stop; endprocess; process Node (0, 19); fpar k Integer, root Pid; dcl n Integer; start; nextstate i; state i; input token(n); decision k; (1): output token(n + 1) to root; else: create Node(k - 1, root); output token(n + 1) to offspring; enddecision; stop; endstate; endprocess; endsystem;";

/// A block with channels that are joined at its border.
pub const BLOCKS: &str =
    "system S; signal a, b; channel C1 nodelay from env to B with a; from B to env with b; endchannel C1; block B; channel R1 nodelay from env to P with a; endchannel R1; channel R2 nodelay from P to env with b; endchannel R2; connect C1 and R1, R2; process P; start; nextstate s; state s; input a; output b; nextstate -; endprocess; endblock; endsystem;";

pub static SPECIFICATIONS: [&str; 29] = [
    CHAIN,
    BLOCKS,
    "system S; signal a, b, c, v(Integer); process P; timer T; start; set(now + 5, T); nextstate s; state s; save T; input a; decision active(T); (true): output v(1); (false): output v(0); enddecision; reset(T); nextstate t; state t; input T; output v(9); nextstate -; endprocess P; endsystem S;",
    "SYSTEM S comment 'x''y'; /* CIF TextRef */ signal a; CHANNEL C from env to P with a; endchannel C; PROCESS P; START; NEXTSTATE s; state s; endstate s; ENDPROCESS; endsystem;",
    "system S; signal a, b, c, v(Integer); process P; dcl n Integer := 0; start; nextstate s; state s; provided n < 2; task n := n + 1; nextstate -; provided n = 3 or n = 1; priority 2; task n := 4; nextstate -; provided n = 1; priority 1; task n := 3; nextstate -; endprocess P; endsystem S;",
    "system S; signal inc, get, quit, val(Integer); process P; dcl n Integer := 0; start; nextstate idle; state idle; input inc; task n := n + 1; nextstate -; input get; output val(n); nextstate -; input quit; stop; endstate idle; endprocess P; endsystem S;",
    "system S; signal a; process P; start; create Q; create Q; output a to offspring; nextstate s; state s; endprocess; process Q (0, 1); start; nextstate q; state q; input a; nextstate -; endprocess; endsystem;",
    "system S; signal a, b, c, v(Integer); process P; timer T := 4; start; set(T); nextstate s; state s; input a; set(T); nextstate -; input T; nextstate -; endstate; endprocess P; endsystem S;",
    "system S; synonym n Integer = ((((((((((((((((((((((((((((((((((((((((((((((((((((((((((((((((1)))))))))))))))))))))))))))))))))))))))))))))))))))))))))))))))); process P; start; stop; endprocess; endsystem;",
    "system S; signal a, b, c, v(Integer); process P; signalset b; dcl d Boolean := false; start; nextstate s; state s; input a; nextstate -; provided sender /= null and not d; task d := true; nextstate -; endprocess P; endsystem S;",
    "system S; signal a, b, c, v(Integer); process P; dcl d Boolean := false; start; nextstate s; state s; input a; nextstate -; provided sender /= null and not d; task d := true; nextstate -; endprocess P; endsystem S;",
    "system S; signal a, b, c, v(Integer); process P; dcl ok Boolean := false; start; nextstate s; state s; input a; provided ok; nextstate -; input b; task ok := true; nextstate -; endprocess P; endsystem S;",
    "system S; signal a, b, c, v(Integer); process P; start; l: join l; endprocess P; endsystem S;",
    "system S; signal a, b, c, v(Integer); process P; dcl n Integer := 0; start; again: task n := n + 1; decision n; (1:2): decision n = 1; (true): task n := n + 0; (false): join out; enddecision; join again; else: stop; enddecision; out: output v(n); nextstate s; state s; endstate; endprocess P; endsystem S;",
    "system S; signal a, b, c, v(Integer); process P; start; decision 3; (1): stop; (> 5): stop; enddecision; state s; endstate; endprocess P; endsystem S;",
    "system S; signal a; channel C nodelay from env to P with a; endchannel; process P; start; output a; stop; endprocess; endsystem;",
    "system S; signal a; process P; start; create Q; create Q; output a to Q; nextstate s; state s; endprocess; process Q (0, 1); start; stop; endprocess; endsystem;",
    "system S; signal a, b, c, v(Integer); process P; dcl n Integer; start; output v(7) to self; output v(8) to P; nextstate s; state s; input v(n); nextstate -; endstate; endprocess P; endsystem S;",
    "system S; signal a, b, c, v(Integer); process P; dcl n Integer := 9223372036854775807; start; output v(-7 / 2), v(-7 rem 2), v(-7 mod 2); task n := n + 1; nextstate s; state s; endprocess P; endsystem S;",
    "system S; signal x, y; process A; start; output x; nextstate s; state s; input y; output x; nextstate -; endprocess; process B; start; nextstate s; state s; input x; output y; nextstate -; endprocess; endsystem;",
    "system S; signal a, b, c, v(Integer); process P; start; nextstate s; state s; input a, b; nextstate -; priority input c; nextstate -; endstate; endprocess P; endsystem S;",
    "system S; signal a; process P;\nstart; nextstate s; state s; input a; nextstate -;\ninput a; stop; endstate; endprocess; endsystem;",
    "system S; signal a, b, c, v(Integer); process P; start; nextstate s; state s; input c; nextstate t; save a, b; state t; input a, b; nextstate -; endprocess P; endsystem S;",
    "system S; signal a, b, c, v(Integer); process P; dcl n Integer; start; nextstate s; state s; input v(n); nextstate -; endstate; endprocess P; endsystem S;",
    "system S; signal t; process P; start; create A; create B(offspring); nextstate s; state s; endstate; endprocess; process A (0); start; nextstate s; state s; input t; nextstate -; endstate; endprocess; process B (0); fpar q Pid; start; output t to q; stop; endprocess; endsystem;",
    "system S; process P; dcl n Integer := 0; start; nextstate s; state s; provided n < 1000; task n := n + 1; create Q; nextstate -; endstate; endprocess; process Q (0); start; stop; endprocess; endsystem;",
    "system S; signal a, b, c, v(Integer); process P; timer T, U; start; set(now - 1, T); set(now + 3, U); set(now + 6, U); nextstate s; state s; input T; nextstate -; input U; nextstate -; endprocess P; endsystem S;",
    "system S; signal a, b, c, v(Integer); process P; timer T(Integer) := 4; dcl n Integer := 0; start; set(T(1)); set(T(2)); set(T(3)); reset(T(3)); set(now + 6, T(1)); nextstate s; state s; input T(n); output v(n); nextstate -; endstate; endprocess P; endsystem S;",
    "system S; signal a; process P (2); start; nextstate s; state s; input a; nextstate -; endstate; endprocess; endsystem;",
];

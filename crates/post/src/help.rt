// What `post --help` says, line by line.
pub const HELP: [&str; 13] = [
    "post: one post of a ring. It answers each line before it reads the next.",
    "",
    "Standard input, one unit to a line, bytes in hexadecimal, # begins a comment:",
    "  02 N K K T T ..      first the settings: N posts, K, and for each post its turn in ticks",
    "  P                    then its place, 0 to N - 1",
    "  01 Q X X S S         a frame of post Q with its number and sum comes to it",
    "  03 P 01              a tick of its clock",
    "  03 P 06, 03 P 07     its button goes down, up",
    "  03 P 08              show its counts",
    "Standard output: `speaks` for a tick in which it speaks, the frame that it sends, `fault N` for a line that is refused,",
    "`post P: G goings on, T ticks since` at a show.",
    "Where settings or place are refused: `post: fault N` on standard error, and status 1.",
    "Faults: 1 an unknown kind or a bad length, 2 out of range, 3 a wrong sum, 4 a frame of another post, 5 a number of K or more.",
];

// What `order --help` says, line by line.
pub const HELP: [&str; 8] = [
    "order: tells of the numbers of a ring whether one member only may go on, and when each post has the word.",
    "",
    "Standard input, one unit to a line, bytes in hexadecimal, # begins a comment:",
    "  02 N K K T T ..      first the settings: N posts, K, and for each post its turn in ticks",
    "  X X X X ..           then the numbers of all 3 N members: of each post, the frame on its line and the line's end",
    "Standard output: `one may: M` and for each post `post P after C`, or `several may: M, M`, the first two.",
    "Where settings or numbers are refused: `order: fault N` on standard error, and status 1.",
    "Faults: 1 an unknown kind or a bad length, 2 out of range, 3 a wrong sum, 4 a frame of another post, 5 a number of K or more.",
];

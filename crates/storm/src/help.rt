// What `storm --help` says, line by line.
pub const HELP: [&str; 15] = [
    "storm: plays all posts and lines of a ring by a script of orders.",
    "",
    "Standard input, one unit to a line, bytes in hexadecimal, # begins a comment:",
    "  02 N K K T T ..      first the settings: N posts, K, and for each post its turn in ticks",
    "  03 P 01              post P ticks",
    "  03 P 02              post P hears the frame on the line to it",
    "  03 P 03              the frame on the line from post P is lost",
    "  03 P 04 and 16 bytes become the memory of post P",
    "  03 P 05 and 6 bytes  become the frame on the line from post P",
    "  03 P 06, 03 P 07     the button of post P goes down, up",
    "  03 P 08              show all numbers, who has the word, who speaks, and the counts of post P",
    "Standard output: a line for each show, `line L: fault N` for each line that is refused, and at the end",
    "`healed after C goings on, at most B` or `not healed after C goings on, at most B`.",
    "Where the settings are refused: `storm: fault N` on standard error, and status 1.",
    "Faults: 1 an unknown kind or a bad length, 2 out of range, 3 a wrong sum, 4 a frame of another post, 5 a number of K or more.",
];

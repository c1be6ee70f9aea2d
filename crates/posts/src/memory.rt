// A post's whole memory, by value: any content is possible. Assumes nothing.
ghost use Rattle.std.specs.Prelude.{◌≡◌, [], ◌∷◌};
ghost use Rattle.lines.specs.Words.{word_bytes};
ghost use Rattle.posts.specs.Layout.{count_bytes, memory_bytes};

use turns::Turn;

#[derive(Clone, Copy, PartialEq, Eq, Debug)]
pub struct Memory {
    // the post's own number
    pub number: u16,
    // the number heard last from the post before
    pub heard: u16,
    // what is left of its turn to speak
    pub turn: Turn,
    // ticks to sending
    pub wait: u16,
    // how many moves it made
    pub moves: u32,
    // ticks since its last move
    pub since: u32,
}

// `word` and `count` are two, since integers of two widths have no trait in common that says what bytes they are. They aren't written out in
// `from_bytes`: nothing says there that a byte of the array is below 256, so the proof didn't close.
fn word(high: u8, low: u8) -> u16
    ensures { word_bytes result ≡ high ∷ low ∷ [] }
{
    u16::from_be_bytes([high, low])
}

fn count(a: u8, b: u8, c: u8, d: u8) -> u32
    ensures { count_bytes result ≡ a ∷ b ∷ c ∷ d ∷ [] }
{
    u32::from_be_bytes([a, b, c, d])
}

impl Memory {
    // The memory that these bytes stand for, and the only one. Named as the library's `from_be_bytes` is: `from` would say less.
    pub fn from_bytes(bytes: [u8; 16]) -> Memory
        ensures value { memory_bytes result ≡ bytes }
        ensures only { (m : Memory) → memory_bytes m ≡ bytes → m ≡ result }
    {
        Memory {
            number: word(bytes[0], bytes[1]),
            heard: word(bytes[2], bytes[3]),
            turn: Turn {
                left: word(bytes[4], bytes[5]),
            },
            wait: word(bytes[6], bytes[7]),
            moves: count(bytes[8], bytes[9], bytes[10], bytes[11]),
            since: count(bytes[12], bytes[13], bytes[14], bytes[15]),
        }
    }

    pub fn to_bytes(self) -> [u8; 16]
        ensures { result ≡ memory_bytes self }
    {
        let [n1, n0] = self.number.to_be_bytes();
        let [h1, h0] = self.heard.to_be_bytes();
        let [t1, t0] = self.turn.left.to_be_bytes();
        let [w1, w0] = self.wait.to_be_bytes();
        let [m3, m2, m1, m0] = self.moves.to_be_bytes();
        let [s3, s2, s1, s0] = self.since.to_be_bytes();
        [
            n1, n0, h1, h0, t1, t0, w1, w0, m3, m2, m1, m0, s3, s2, s1, s0,
        ]
    }
}

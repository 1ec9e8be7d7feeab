// Printed lines: for a call its place, the refusal and four values; for a bad line of a script a `?` and its number; for a summary a `=` and four counts.
// They are gathered in a buffer, and go out together.
#![tactic(auto)]

ghost use Rattle.lines.specs.Lines.{Appends, decimal, column, line_of, bad_of, summary_of};

use state::Reply;
use std::io::Print;

// Bytes that the caller lends, and how many of them are used, from the first on.
#[derive(Drop)]
pub struct Buffer<'a> {
    pub bytes: &'a mut [u8],
    pub used: usize,
}

impl Buffer<'_> {
    // Adds bytes; where there is no room, nothing is added.
    pub fn add(&mut self, s: &[u8])
        ensures { Appends self.old s.now self.new }
    {
        let at = self.used;
        if at <= self.bytes.len() && s.len() <= self.bytes.len() - at {
            let end = at + s.len();
            self.bytes[at..end].copy_from_slice(s);
            self.used = end;
        }
    }

    // Adds a number in decimal.
    pub fn add_number(&mut self, n: u64)
        ensures { Appends self.old (decimal n) self.new }
    {
        let mut text = [0u8; 20];
        let k = io::decimal(n, &mut text);
        self.add(&text[..k]);
    }

    // Adds a space and a number.
    fn add_column(&mut self, n: u64)
        ensures { Appends self.old (column n) self.new }
    {
        self.add(b" ");
        self.add_number(n);
    }

    // Adds a call's line.
    pub fn add_line(&mut self, place: u64, r: Reply)
        ensures { Appends self.old (line_of place r) self.new }
    {
        self.add_number(place);
        self.add_column(r.refusal as u64);
        self.add_column(r.a as u64);
        self.add_column(r.b as u64);
        self.add_column(r.c as u64);
        self.add_column(r.d as u64);
        self.add(b"\n");
    }

    // Adds the line of a bad one.
    pub fn add_bad(&mut self, k: u64)
        ensures { Appends self.old (bad_of k) self.new }
    {
        self.add(b"? ");
        self.add_number(k);
        self.add(b"\n");
    }

    // Adds the line of a summary.
    pub fn add_summary(&mut self, calls: u64, accepted: u64, refused: u64, bad: u64)
        ensures { Appends self.old (summary_of calls accepted refused bad) self.new }
    {
        self.add(b"=");
        self.add_column(calls);
        self.add_column(accepted);
        self.add_column(refused);
        self.add_column(bad);
        self.add(b"\n");
    }
}

// Prints a call's line by itself: at most six numbers of ten digits, five spaces and the newline. A line that cannot be written is passed over.
pub fn line(rt: &impl Print, place: u32, r: Reply) {
    let mut text = [0u8; 66];
    let mut out = Buffer {
        bytes: &mut text,
        used: 0,
    };
    out.add_line(place as u64, r);
    let n = out.used.min(66);
    let _ = rt.write_all(&text[..n]);
}

// The program's lines, written one after another at the front of a lent buffer.
ghost use Rattle.std.specs.Prelude.{◌++◌, ◌+◌, ◌*◌, ◌≤◌, length};
ghost use Rattle.ring.specs.Lists.{each};
ghost use Rattle.report.specs.Text.{ascii, decimal, first_line, board_line, board_lines};
ghost use Rattle.report.specs.Report.{refused_text};
ghost use Rattle.report.specs.Writing.{Writes, Fits, fields_text};

use hop::Refusal;
use planner::{Planned, Traffic};

// A text, as far as it is written: the first bytes of its buffer. It writes its own words and numbers, since std promises of no `write!` that it
// succeeds where there is room.
// A buffer and a length, since memory is fixed and no heap is used: the text stands in a lent array.
#[derive(Drop)]
pub(crate) struct Text<'a> {
    pub(crate) buffer: &'a mut [u8],
    pub(crate) length: usize,
}

impl Text<'_> {
    // Some bytes more.
    fn write(&mut self, bytes: &[u8])
        requires { Fits bytes.now self.old }
        ensures { Writes bytes.now self.old self.new }
    {
        let end = self.length + bytes.len();
        self.buffer[self.length..end].copy_from_slice(bytes);
        self.length = end;
    }

    // A number in decimal.
    fn number(&mut self, n: u32)
        requires { Fits (decimal n) self.old }
        ensures { Writes (decimal n) self.old self.new }
    {
        if n >= 10 {
            self.number(n / 10);
        }
        self.write(&[b'0' + (n % 10) as u8]);
    }

    // Words, each with the number after it, and the line's end.
    fn line(&mut self, fields: &[(&str, u32)])
        requires { Fits (fields_text fields.now ++ ascii "\n") self.old }
        ensures { Writes (fields_text fields.now ++ ascii "\n") self.old self.new }
    {
        for (word, n) in fields {
            self.write(word.as_bytes());
            self.number(*n);
        }
        self.write(b"\n");
    }

    // The line of a refusal.
    pub(crate) fn refusal(&mut self, refusal: Refusal)
        requires { Fits (refused_text refusal) self.old }
        ensures { Writes (refused_text refusal) self.old self.new }
    {
        self.line(&[
            ("refused ", refusal.number().into()),
            (" board ", refusal.board().into()),
        ]);
    }

    // The first line of an answer.
    pub(crate) fn first(&mut self, planned: Planned)
        requires { Fits (first_line planned.finish planned.moves planned.tight) self.old }
        ensures { Writes (first_line planned.finish planned.moves planned.tight) self.old self.new }
    {
        self.line(&[
            ("finish ", planned.finish),
            (" moves ", planned.moves),
            (" tight ", planned.tight.into()),
        ]);
    }

    // The line of a board.
    fn board(&mut self, board: u8, sends: u32, receives: u32)
        requires { Fits (board_line board sends receives) self.old }
        ensures { Writes (board_line board sends receives) self.old self.new }
    {
        self.line(&[
            ("board ", board.into()),
            (" sends ", sends),
            (" receives ", receives),
        ]);
    }

    // The lines of boards 0 .. n - 1, by what each sends and receives.
    pub(crate) fn boards(&mut self, n: u8, traffic: &Traffic)
        requires boards { n ≤ 128 }
        requires fits { self.old.length + 61 * n ≤ length self.old.buffer.now }
        ensures { Writes (board_lines (each traffic.now.sends) (each traffic.now.receives) n) self.old self.new }
    {
        let sends = &traffic.sends[..usize::from(n)];
        for (board, (sends, receives)) in sends.iter().zip(&traffic.receives).enumerate() {
            self.board(board as u8, *sends, *receives);
        }
    }
}

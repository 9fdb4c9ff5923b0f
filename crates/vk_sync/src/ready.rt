ghost use Rattle.std.specs.Prelude.{◌≡◌, ◌<◌, ◌≤◌, ◌↔◌, ◌++◌, ◌∷◌, [], ℕ};
ghost use Rattle.std.specs.Prelude.{IfOk, OnOk, OnErr, IsTrue};
ghost use Rattle.std.specs.Prelude.{Some, Contains, length, slice_get, slice_index};
ghost use Rattle.std.specs.List.{range_with_len};
ghost use Rattle.vk_sync.specs.Ready.{MayCome, AreFinished, count_on, is_met, ready, after_piece};

use crate::board::{Board, Command, is_within};
use crate::left::PieceSet;
use crate::line::Line;
use crate::tree::SumTree;
use std::alloc::{AllocError, Global};
use std::marker::Model;

/// A piece: its command, by its number in the order of adding, and its place among the command's
/// pieces.
#[derive(Clone, Copy, Debug, PartialEq, Eq)]
pub struct Piece {
    /// The number of its command.
    pub command: usize,
    /// Its place among the command's pieces.
    pub index: u64,
}

/// Commands, of which the pieces that may run next are known. Contracts see the list of the
/// commands, in the order of adding.
///
/// A search for a piece goes past at most 64 counts, 64 sums of 64 counts, and one sum for each
/// 4,096 commands; and in the same way past the pieces of its command. A command is passed once
/// when it is finished, and once when it waits for nothing more.
#[derive(Drop)]
pub struct Ready {
    alloc: Global,
    board: Board,
    /// How many pieces all commands were added with.
    pieces: u64,
}

impl Model for Ready {
    ghost use Rattle.std.specs.Prelude.{List, length, ◌≤◌};
    ghost use Rattle.std.specs.List.{sum_by};
    ghost use Rattle.vk_sync.specs.declared.board.Command.{Command};
    ghost use Rattle.vk_sync.specs.Inner.Boards.{IsBoard};

    ghost Value = { List Command };

    ghost view = { λ r. r.board.commands.items };

    ghost invariant = { λ r. IsBoard r.board
        × (sum_by (λ c. length c.left) r.board.commands.items ≤ r.pieces) };
}

impl Ready {
    /// No commands.
    pub fn new(alloc: Global) -> Ready
        ensures { result ≡ [] }
    {
        let board = Board {
            commands: Vec::new(alloc),
            lines: [
                Line::new(alloc),
                Line::new(alloc),
                Line::new(alloc),
                Line::new(alloc),
            ],
            done: [0; 4],
            free: [0; 4],
            counts: SumTree::new(alloc),
        };
        Ready {
            alloc,
            board,
            pieces: 0,
        }
    }

    /// Whether a command may come next, on a queue and after so many of each.
    pub fn may_come(&self, queue: u32, before: [usize; 4]) -> bool
        ensures { IsTrue result ↔ MayCome self.now queue before }
    {
        self.board.may_come(queue, &before)
    }

    /// Appends a command with all its pieces left. It is on a queue and waits for commands
    /// before it: of each queue, for the first so many. The only error is want of memory, or of
    /// numbers where all commands have 2^64 pieces and more; it leaves all as it was.
    pub fn add(&mut self, queue: u32, before: [usize; 4], pieces: u64) -> Result<(), AllocError>
        requires { MayCome self.old queue before }
        ensures ok { OnOk result (self.new ≡ self.old
            ++ record { queue = queue; before = before; left = range_with_len 0 pieces } ∷ []) }
        ensures err { OnErr result (self.new ≡ self.old) }
    {
        let Some(all) = self.pieces.checked_add(pieces) else {
            return Err(AllocError);
        };
        let left = PieceSet::all(self.alloc, pieces)?;
        let command = Command {
            queue,
            before,
            left,
        };
        self.board.push(command)?;
        self.board.settle(queue as usize);
        self.pieces = all;
        Ok(())
    }

    /// How many pieces are ready.
    pub fn count(&self) -> u64
        ensures { result ≡ length (ready self.now) }
    {
        self.board.counts.total()
    }

    /// A ready piece, by its place in reference order.
    pub fn nth(&self, place: u64) -> Piece
        requires { place < length (ready self.now) }
        ensures piece { slice_get (ready self.now) place ≡ Some result }
        ensures among { Contains (ready self.now) result }
    {
        let found = self.board.counts.find(place);
        let command = found.leaf;
        let index = self.board.commands[command].left.nth(found.rest);
        Piece { command, index }
    }

    /// All ready pieces, in reference order. The only error is want of memory.
    pub fn ready(&self) -> Result<Vec<Piece>, AllocError>
        ensures { IfOk result (λ pieces. pieces.items ≡ ready self.now) }
    {
        let mut pieces = Vec::new(self.alloc);
        for place in 0..self.count() {
            pieces.push(self.nth(place))?;
        }
        Ok(pieces)
    }

    /// Whether all pieces of the first so many commands of each queue have run.
    pub fn is_met(&self, before: [usize; 4]) -> bool
        requires { (q : ℕ) → q < 4 → slice_index before q ≤ count_on q self.now }
        ensures { result ≡ is_met before self.now }
    {
        is_within(&before, &self.board.done)
    }

    /// Of each queue, how many commands from its first on are finished: they have no piece left, and
    /// the next one has one, if there is a next one. It takes no memory.
    pub fn fronts(&self) -> [usize; 4]
        ensures { AreFinished self.now result }
    {
        let kept = &self.board;
        kept.done
    }

    /// A ready piece has run: it is left no more, and all else stays. It takes no memory.
    pub fn finish(&mut self, piece: Piece)
        requires { Contains (ready self.old) piece }
        ensures { self.new ≡ after_piece piece self.old }
    {
        self.board.finish(piece);
    }
}

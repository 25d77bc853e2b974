// The edges of a link whose stream is cut at Forks and joined at Joins.
ghost use Rattle.std.specs.Prelude.{ℕ, ◌≡◌, ◌+◌, ◌≤◌, ◌<◌, ◌^◌, [], ◌∷◌, ◌++◌, length, take, slice_index, nat_lt, if◌then◌else◌, OnOk};
ghost use Rattle.single_rate.specs.Wires.{total, piece_counts, piece, end_at, pieces_of, all_pieces, cut_and_joined};
ghost use Rattle.single_rate.specs.Cursors.{IsAtReader, size_at, writer_at, forks_by, joins_by};

use crate::counting::{Range, count_pieces, met};
use crate::part::{Part, Port};
use crate::wire::Wire;
use sdf_level::Node;
use std::alloc::{AllocError, Global};

/// The reader at which the pieces stand: its number, where it starts, and how many pieces it has from the writers before.
#[derive(Debug, Clone, Copy, Drop)]
pub struct Reader {
    pub part: usize,
    pub start: u32,
    pub met: u32,
}

/// Where a piece ends: with more than one, at this port of what copies them, else at the writer or reader itself.
fn piece_end(copier: Node, many: u32, port: u32, at: Port) -> Port
    ensures { result ≡ end_at copier many port at }
{
    if 1 < many {
        Port { node: copier, port }
    } else {
        at
    }
}

/// A link's line: the parts that write to it and those that read from it, and how many pieces each of them has.
#[derive(Debug, Clone, Copy, Drop)]
pub struct Line<'a> {
    pub link: u32,
    pub writers: &'a [Part],
    pub writer_pieces: &'a [u32],
    pub readers: &'a [Part],
    pub reader_pieces: &'a [u32],
}

/// Adds the piece of two ranges, if they have places in common.
fn add_piece(
    tail: Port,
    head: Port,
    written: Range,
    read: Range,
    wires: &mut Vec<Wire>,
) -> Result<(), AllocError>
    ensures { OnOk result (wires.new.items ≡ wires.old.items ++ piece tail head written.start written.end read.start read.end) }
{
    let place = written.start.max(read.start);
    let end = written.end.min(read.end);
    if place < end {
        wires.push(Wire {
            tail,
            head,
            size: end - place,
            place,
        })?;
        Ok(())
    } else {
        Ok(())
    }
}

/// Adds the pieces of the writer with this number, which begins at this place.
fn add_row(
    line: &Line<'_>,
    number: usize,
    place: u32,
    at: &mut Reader,
    wires: &mut Vec<Wire>,
) -> Result<(), AllocError>
    requires writer { number < length line.now.writers.now }
    requires place { place ≡ total (take number line.now.writers.now) }
    requires few_writers { length line.now.writers.now < 2 ^ 32 }
    requires few_readers { length line.now.readers.now < 2 ^ 32 }
    requires short { total line.now.writers.now < 2 ^ 32 }
    requires readers_short { total line.now.readers.now < 2 ^ 32 }
    requires writer_counts { line.now.writer_pieces.now ≡ piece_counts 0 line.now.writers.now line.now.readers.now }
    requires counts { line.now.reader_pieces.now ≡ piece_counts 0 line.now.readers.now line.now.writers.now }
    requires at { IsAtReader place (take number line.now.writers.now) line.now.readers.now at.old }
    ensures wires { OnOk result (wires.new.items ≡ wires.old.items ++ pieces_of (writer_at line.now.link line.now.writers.now number (slice_index line.now.writer_pieces.now number) place) 0 0 0 line.now.readers.now) }
    ensures at { OnOk result (IsAtReader (place + size_at line.now.writers.now number) (take (number + 1) line.now.writers.now) line.now.readers.now at.new) }
{
    let link = line.link;
    let writer = line.writers[number];
    let many = line.writer_pieces[number];
    let end = place + writer.size;
    let written = Range { start: place, end };
    let fork = Node::Fork {
        link,
        turn: number as u32,
    };
    let mut port = 0u32;
    while at.part < line.readers.len() {
        let reader = line.readers[at.part];
        let read = Range {
            start: at.start,
            end: at.start + reader.size,
        };
        let tail = piece_end(fork, many, port, writer.at);
        let join = Node::Join {
            link,
            turn: at.part as u32,
        };
        let head = piece_end(join, line.reader_pieces[at.part], at.met, reader.at);
        add_piece(tail, head, written, read, wires)?;
        let one = met(written, read);
        if end < read.end {
            at.met += one;
            return Ok(());
        }
        port += one;
        at.part += 1;
        at.start = read.end;
        at.met = 0;
    }
    Ok(())
}

/// Adds the pieces of all writers.
fn add_pieces(line: &Line<'_>, wires: &mut Vec<Wire>) -> Result<(), AllocError>
    requires few_writers { length line.now.writers.now < 2 ^ 32 }
    requires few_readers { length line.now.readers.now < 2 ^ 32 }
    requires short { total line.now.writers.now < 2 ^ 32 }
    requires readers_short { total line.now.readers.now < 2 ^ 32 }
    requires counts { line.now.writer_pieces.now ≡ piece_counts 0 line.now.writers.now line.now.readers.now }
    requires reader_counts { line.now.reader_pieces.now ≡ piece_counts 0 line.now.readers.now line.now.writers.now }
    ensures { OnOk result (wires.new.items ≡ wires.old.items ++ all_pieces line.now.link line.now.writers.now line.now.readers.now [] 0 0 line.now.writers.now) }
{
    let mut at = Reader {
        part: 0,
        start: 0,
        met: 0,
    };
    let mut place = 0u32;
    for i in 0..line.writers.len() {
        add_row(line, i, place, &mut at, wires)?;
        place += line.writers[i].size;
    }
    Ok(())
}

/// Adds an edge at a Fork or Join, if there is one.
fn add_if_many(many: u32, wire: Wire, wires: &mut Vec<Wire>) -> Result<(), AllocError>
    ensures { OnOk result (wires.new.items ≡ wires.old.items ++ (if nat_lt 1 many then wire ∷ [] else [])) }
{
    if many > 1 {
        wires.push(wire)?;
        Ok(())
    } else {
        Ok(())
    }
}

/// Adds the edges into the Forks.
fn add_into_forks(
    link: u32,
    writers: &[Part],
    writer_pieces: &[u32],
    wires: &mut Vec<Wire>,
) -> Result<(), AllocError>
    requires few { length writers.now < 2 ^ 32 }
    requires short { total writers.now < 2 ^ 32 }
    requires counts { length writer_pieces.now ≡ length writers.now }
    ensures { OnOk result (wires.new.items ≡ wires.old.items ++ forks_by link writer_pieces.now 0 0 writers.now) }
{
    let mut place = 0u32;
    for i in 0..writers.len() {
        let writer = writers[i];
        let wire = Wire {
            tail: writer.at,
            head: Port {
                node: Node::Fork {
                    link,
                    turn: i as u32,
                },
                port: 0,
            },
            size: writer.size,
            place,
        };
        add_if_many(writer_pieces[i], wire, wires)?;
        place += writer.size;
    }
    Ok(())
}

/// Adds the edges out of the Joins.
fn add_out_of_joins(
    link: u32,
    readers: &[Part],
    reader_pieces: &[u32],
    wires: &mut Vec<Wire>,
) -> Result<(), AllocError>
    requires few { length readers.now < 2 ^ 32 }
    requires short { total readers.now < 2 ^ 32 }
    requires counts { length reader_pieces.now ≡ length readers.now }
    ensures { OnOk result (wires.new.items ≡ wires.old.items ++ joins_by link reader_pieces.now 0 0 readers.now) }
{
    let mut place = 0u32;
    for j in 0..readers.len() {
        let reader = readers[j];
        let wire = Wire {
            tail: Port {
                node: Node::Join {
                    link,
                    turn: j as u32,
                },
                port: 0,
            },
            head: reader.at,
            size: reader.size,
            place,
        };
        add_if_many(reader_pieces[j], wire, wires)?;
        place += reader.size;
    }
    Ok(())
}

/// Adds the edges of a link with these writers and readers: in one pass over both.
pub fn cut_and_join(
    alloc: Global,
    link: u32,
    writers: &[Part],
    readers: &[Part],
    wires: &mut Vec<Wire>,
) -> Result<(), AllocError>
    requires few_writers { length writers.now < 2 ^ 32 }
    requires few_readers { length readers.now < 2 ^ 32 }
    requires short { total writers.now < 2 ^ 32 }
    requires readers_short { total readers.now < 2 ^ 32 }
    ensures { OnOk result (wires.new.items ≡ wires.old.items ++ cut_and_joined link writers.now readers.now) }
{
    let writer_pieces = count_pieces(alloc, writers, readers)?;
    let reader_pieces = count_pieces(alloc, readers, writers)?;
    add_into_forks(link, writers, &writer_pieces, wires)?;
    let line = Line {
        link,
        writers,
        writer_pieces: &writer_pieces,
        readers,
        reader_pieces: &reader_pieces,
    };
    add_pieces(&line, wires)?;
    add_out_of_joins(link, readers, &reader_pieces, wires)?;
    Ok(())
}

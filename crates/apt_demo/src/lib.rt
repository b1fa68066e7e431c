//! The part that `demo` compiles.
#![tactic(auto)]

ghost use Rattle.std.specs.Prelude.{◌≡◌, ◌≤◌, ◌+◌, ◌*◌, ◌++◌, pos, ◌≤ℤ◌, length, drop, IfOk, OnOk};
ghost use Rattle.apt_demo.specs.Demo as demo;
ghost use Rattle.apt_demo.specs.Promise.{demo_machine, HasRecords};

use apt_lines::{
    ROOM, push_from, whole_line, write_count, write_number, write_pointed, write_signed_pointed,
    write_text,
};
use std::alloc::{AllocError, Global};

/// The text of the part with so many circles, each cut round in two halves.
///
/// # Errors
///
/// Memory lacks.
pub fn demo_part(alloc: Global, n: u32) -> Result<Vec<u8>, AllocError>
    requires { (1 ≤ n) × (n ≤ 800) }
    ensures text { IfOk result (λ v. v.items ≡ demo.demo_part n) }
    ensures short { IfOk result (λ v. length v.items ≤ 576 * n + 512) }
    ensures records { IfOk result (λ v. HasRecords demo_machine v.items) }
{
    let mut text = Vec::new(alloc);
    let mut room = [0u8; ROOM];
    let start = head(&mut room, n);
    push_from(&mut text, &room, start)?;
    'circles: for k in 0..n {
        push_block(&mut text, &mut room, k)?;
    }
    text.extend_from_slice(b"FINI\n")?;
    Ok(text)
}

fn head(room: &mut [u8], n: u32) -> usize
    requires { length room.old ≡ 192 }
    ensures start { result ≤ 192 }
    ensures head { drop result room.new ≡ demo.head n }
{
    let end = whole_line(room, "\nCUTTER/.5\nFEDRAT/10\nFROM/-450,-450,.5\nTLRGT\n");
    let at = write_count(room, end, u64::from(n));
    write_text(room, at, "PARTNO DEMO ")
}

/// The centre of a circle, in inches.
fn centre_x(k: u32) -> i64
    ensures value { result ≡ demo.centre_x k }
    ensures small { result ≤ℤ pos 380 }
{
    i64::from(20 * (k % 40)) - 400
}

fn centre_y(k: u32) -> i64
    requires { k ≤ 800 }
    ensures { result ≡ demo.centre_y k }
{
    i64::from(20 * (k / 40)) - 200
}

/// Its radius, in hundredths of an inch.
fn radius(k: u32) -> u32
    ensures value { result ≡ demo.radius k }
    ensures small { result ≤ 275 }
{
    100 + 25 * (k % 8)
}

/// An inch to its right, in hundredths of an inch.
fn clear_x(k: u32) -> i64
    ensures { result ≡ demo.clear_x k }
{
    i64::from(2000 * (k % 40) + radius(k) + 100) - 40_000
}

/// Appends the statements of a circle.
fn push_block(text: &mut Vec<u8>, room: &mut [u8], k: u32) -> Result<(), AllocError>
    requires room { length room.old ≡ 192 }
    requires k { k ≤ 800 }
    ensures text { OnOk result (text.new.items ≡ text.old.items ++ demo.circle_block k) }
    ensures short { OnOk result (length text.new.items ≤ length text.old.items + 576) }
{
    let x = centre_x(k);
    let y = centre_y(k);
    let start = circle_line(room, x, y, u64::from(radius(k)));
    push_from(text, room, start)?;
    let start = line_line(room, x, y);
    push_from(text, room, start)?;
    let start = cut_lines(room, clear_x(k), y);
    push_from(text, room, start)?;
    Ok(())
}

fn circle_line(room: &mut [u8], x: i64, y: i64, radius: u64) -> usize
    requires { length room.old ≡ 192 }
    ensures start { result ≤ 192 }
    ensures line { drop result room.new ≡ demo.circle_line x y radius }
{
    let end = whole_line(room, "\n");
    let at = write_pointed(room, end, 2, radius);
    let at = write_text(room, at, ",");
    let at = write_number(room, at, y);
    let at = write_text(room, at, ",");
    let at = write_number(room, at, x);
    write_text(room, at, "C=CIRCLE/")
}

fn line_line(room: &mut [u8], x: i64, y: i64) -> usize
    requires room { length room.old ≡ 192 }
    requires x { x ≤ℤ pos 380 }
    ensures start { result ≤ 192 }
    ensures line { drop result room.new ≡ demo.line_line x y }
{
    let end = whole_line(room, "\n");
    let at = write_pair(room, end, x + 1, y);
    let at = write_text(room, at, ",");
    let at = write_pair(room, at, x, y);
    write_text(room, at, "L=LINE/")
}

/// Writes the two numbers of a point.
fn write_pair(room: &mut [u8], end: usize, x: i64, y: i64) -> usize
    requires room { 90 ≤ end }
    requires end { end ≤ length room.old }
    ensures start { (result ≤ end) × (end ≤ result + 81) }
    ensures written { drop result room.new ≡ demo.pair x y ++ drop end room.old }
{
    let at = write_number(room, end, y);
    let at = write_text(room, at, ",");
    write_number(room, at, x)
}

fn cut_lines(room: &mut [u8], x: i64, y: i64) -> usize
    requires { length room.old ≡ 192 }
    ensures start { result ≤ 192 }
    ensures line { drop result room.new ≡ demo.cut_lines x y }
{
    let end = whole_line(
        room,
        ",.5\nGODLTA/0,0,-.5\nGO/TO,C\nGORGT/C,ON,L\nGOFWD/C,ON,L\nGODLTA/0,0,.5\n",
    );
    let at = write_number(room, end, y);
    let at = write_text(room, at, ",");
    let at = write_signed_pointed(room, at, 2, x);
    write_text(room, at, "RAPID\nGOTO/")
}

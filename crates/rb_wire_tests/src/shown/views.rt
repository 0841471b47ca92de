// Views of divisions.

use crate::digits::bytes_of;
use crate::parts::{Make, remainder, word};
use crate::shown::expected::expect;
use rb_places::Places;
use rb_shown::split_view;
use rb_trees::{Memory, Script, Seq, Split, Word};
use rb_wire_script::decode_script;
use std::alloc::Global;
use std::test::Fail;

/// A program's text, whose line 2 begins at offset 7.
const SOURCE: &[u8] = b"main {\n  batch (D r) { }\n}\n";

/// The payload of a script with each form of step, of literal and of operator. Its fourth input is a list.
static STEPS: &str = "02
03 06 61202262220a 03 707574 01 6e
0d 0200 0200 0200 0400 0200 0200 0200 0200 0200 0200 0200 0200 0200
20
100001 20 0300
100101 20 010d
100201 20 01ffffffffffffffffff01
100301 20 0201
100401 210c
100501 23
120601 0100 23
120701 0401 2201
100801 2204
110901 23
100a01 26010001 23 02 26010002 23 00 2204
100b01 240101 2201
100c01 240201 2201
100d01 240301 2201
100e01 240401 2201
100f01 250101 2201 2102
101001 250201 2201 2102
101101 250301 2201 2102
101201 250401 2201 2102
101301 250501 2201 2102
101401 250601 2201 2102
101501 250701 2201 2102
101601 250801 2201 2102
101701 250901 2201 2102
101801 250a01 2201 2102
101901 250b01 2201 2102
101a01 250c01 2201 2102
101b01 250d01 2201 2102
131c01 2100 01 101d01 23 01 101e01 23
141f01 0500 23 02
  132001 2100 01 102101 23 00
  132201 2100 01 102301 23 02 102401 23 102501 23
142601 0501 23 02
  132701 2100 01 102801 23 00
  132901 2100 01 102a01 23 02 102b01 23 102c01 23
152d01 0603 01
  132e01 2100 01 102f01 23 00";

/// A remainder with a part of each form.
static PARTS: [Make; 25] = [
    Make::Block,
    Make::Loop(&[]),
    Make::Bind(7, "s", 1),
    Make::Both(8, "k"),
    Make::Block,
    Make::Pass(10),
    Make::Block,
    Make::Pass(0),
    Make::Branch(9),
    Make::Block,
    Make::Block,
    Make::Pass(10),
    Make::Block,
    Make::Branch(9),
    Make::Block,
    Make::Pass(10),
    Make::Block,
    Make::Pass(0),
    Make::Pass(1),
    Make::Branch(9),
    Make::Loop(&[]),
    Make::Turns(11, "f", 4),
    Make::Block,
    Make::Loop(&[]),
    Make::Over(12, "g", "rows", 2),
];

/// The view of their division.
static VIEW: &str = "batch 2:3
inputs a long
script
  0 do \"a \\\"b\\\"\\n\"
  1 do -7
  2 do -9223372036854775808
  3 do true
  4 do in12
  5 do root
  6 let v1 = root
  7 let v4 keep = v1
  8 do v4
  9 keep root
  10 do root.put(root.n(), v4)
  11 do not(v1)
  12 do neg(v1)
  13 do len(v1)
  14 do str(v1)
  15 do add(v1, in2)
  16 do sub(v1, in2)
  17 do mul(v1, in2)
  18 do div(v1, in2)
  19 do rem(v1, in2)
  20 do eq(v1, in2)
  21 do ne(v1, in2)
  22 do lt(v1, in2)
  23 do le(v1, in2)
  24 do gt(v1, in2)
  25 do ge(v1, in2)
  26 do and(v1, in2)
  27 do or(v1, in2)
  28 if in0
    29 do root
  else
    30 do root
  31 each v5 in root
    32 if in0
      33 do root
    34 if in0
      35 do root
    else
      36 do root
      37 do root
  38 each v5 keep in root
    39 if in0
      40 do root
    41 if in0
      42 do root
    else
      43 do root
      44 do root
  45 over v6 in in3
    46 if in0
      47 do root
remainder
  while (<1>) {
    throw <2>;
  }
  val s = <7>;
  val k = <0> + <1>; // <8>
  if <9> {
    pass <10>;
  } else {
    pass <0>;
  }
  for f in <11> {
    if <9> {
      pass <10>;
    }
    if <9> {
      pass <10>;
    } else {
      pass <0>;
      pass <1>;
    }
    while (<1>) {
      throw <2>;
    }
  }
  for g in rows <12> {
    while (<1>) {
      throw <2>;
    }
  }
";

/// Words of these texts.
fn words(alloc: Global, texts: &[&str]) -> Result<Seq<Word>, Memory> {
    let mut words = Seq::new(alloc);
    for text in texts {
        words.push(word(alloc, text)?)?;
    }
    Ok(words)
}

/// The script of the payload of these digits.
fn script_of(alloc: Global, digits: &str) -> Result<Script, Fail> {
    let payload = bytes_of(alloc, digits)?;
    if payload.len() > 16_777_216 {
        return Err(Fail::new("a payload is too long"));
    }
    let (_version, script, _values) = decode_script(alloc, payload.as_slice())?;
    Ok(script)
}

/// The division of the batch in that text.
fn division(alloc: Global, inputs: &[&str], digits: &str, makes: &[Make]) -> Result<Split, Fail> {
    let inputs = words(alloc, inputs)?;
    let remainder = remainder(alloc, makes)?;
    let script = script_of(alloc, digits)?;
    Ok(Split {
        batch: 0,
        at: 9,
        inputs,
        script,
        remainder,
    })
}

fn view(alloc: Global, split: &Split) -> Result<Word, Memory> {
    let places = Places::of(alloc, SOURCE)?;
    split_view(alloc, &places, split)
}

/// Fails unless a division with inputs of these names, this script and this remainder has this view.
fn view_is(
    alloc: Global,
    inputs: &[&str],
    digits: &str,
    makes: &[Make],
    wanted: &str,
) -> Result<(), Fail> {
    let split = division(alloc, inputs, digits, makes)?;
    let shown = view(alloc, &split)?;
    expect(&shown, wanted)
}

#[test]
fn divisions_have_their_views(rt: HostRuntime) -> Result<(), Fail> {
    let alloc = rt.alloc();
    view_is(alloc, &["a", "long"], STEPS, &PARTS, VIEW)?;
    let empty = "batch 2:3\ninputs\nscript\nremainder\n";
    view_is(alloc, &[], "02 00 00 00", &[], empty)
}

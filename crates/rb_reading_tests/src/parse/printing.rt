// Texts that are read, and how they are printed.

use crate::expected::expect;
use crate::parse::texts::printed;
use std::alloc::Global;
use std::test::Fail;

/// Texts that are read: each form of the grammar once, and two that print what they compute.
const READ: &[&str] = &[
    "main{}",
    "main: Int { return 1; }",
    "interface I { fun a(); fun b(x: Int, y: List<Rows<I>>): Text; } main { }",
    "class C { a: Int; b: C; fun f(): Bool { return true; } remote fun g(x: Unit) { } } main { }",
    "main { val a = 1; var b = \"x\\n\"; a = b; print(a); throw b; a.b; }",
    "main { if (a) { } else { } while (b) { c; } for (d in e) { } try { } catch (f) { } batch (G h) { h.i(); } }",
    "main { a = !-b || c && d == e < f + g * -h; a = len(b) + str(c); a = new B(1, true, false, this); }",
    "main { a = List<List<Int>>(List<Int>(1), b.c[2].d(), (e)); - -9223372036854775808; }",
    "interface File { fun size(): Int; fun grow(by: Int); } interface Dir { fun files(): Rows<File>; fun file(i: Int): File; } class Box { v: Int; fun set(n: Int) { this.v = n; } fun get(): Int { return this.v; } } main { val o = new Box(0); batch (Dir r) { o.set(r.file(0).size()); r.file(1).grow(o.get()); } }",
    "main { val m = -9223372036854775808; print(m / -1); print(m % -1); print(m - 1); }",
];

/// Expressions: operators bind by their levels and group to the left, and parentheses stand where they are needed alone.
static EXPRESSIONS: &str = "main {
  print((1 - 2) - 3);
  print(1 - (2 - 3));
  print(1 + (2 * 3));
  print((1 + 2) * 3);
  print((a || b) || c);
  print(a || (b && c));
  print((a || b) && c);
  print(a && (b == c));
  print((a == b) == c);
  print(a == (b < c));
  print((a < b) < (c + d));
  print(-(a.b));
  print((-a).b);
  print(((- -1)));
}
";

/// The same, as they are printed.
static PLAIN: &str = "main {
  print(1 - 2 - 3);
  print(1 - (2 - 3));
  print(1 + 2 * 3);
  print((1 + 2) * 3);
  print(a || b || c);
  print(a || b && c);
  print((a || b) && c);
  print(a && b == c);
  print((a == b) == c);
  print(a == b < c);
  print((a < b) < c + d);
  print(-a.b);
  print((-a).b);
  print(--1);
}
";

/// A text with each form of declaration and statement, as it is printed.
static WHOLE: &str = "interface D {
  fun n();
  fun k(a: Int, b: List<Rows<Text>>): Rows<D>;
}
class Box {
  v: Int;
  next: Box;
  fun set(n: Int) {
    this.v = n;
  }
  remote fun get(): Int {
    return this.v;
  }
}
main: Text {
  val m = -9223372036854775808;
  var t = \"a\\n\\\"\\\\b\";
  if (m < 0) {
    t = t + \"y\";
  } else {
    while (true) {
      throw t;
    }
  }
  if (!(m == 1)) {
  }
  for (i in List<Int>(1, 2)) {
    print(i % m / -1);
  }
  try {
    new Box(0, this).set(len(t));
  } catch (e) {
    print(str(e[0 * 1]));
  }
  batch (D r) {
    r.k(1, r.n());
  }
  return t;
}
";

/// Fails unless each text is printed as what stands beside it.
fn prints_are(alloc: Global, rows: &[(&str, &str)]) -> Result<(), Fail> {
    for (source, wanted) in rows {
        let text = printed(alloc, source.as_bytes())?;
        expect(source, text.as_slice(), wanted.as_bytes())?;
    }
    Ok(())
}

/// Fails unless each text is printed as it is printed once more.
fn prints_stay(alloc: Global, sources: &[&str]) -> Result<(), Fail> {
    for source in sources {
        let once = printed(alloc, source.as_bytes())?;
        let again = printed(alloc, once.as_slice())?;
        expect(source, again.as_slice(), once.as_slice())?;
    }
    Ok(())
}

#[test]
fn what_is_printed_is_read_and_printed_alike(rt: HostRuntime) -> Result<(), Fail> {
    prints_stay(rt.alloc(), READ)
}

#[test]
fn operators_bind_by_their_levels_and_group_to_the_left(rt: HostRuntime) -> Result<(), Fail> {
    prints_are(rt.alloc(), &[(EXPRESSIONS, PLAIN), (WHOLE, WHOLE)])
}

// Programs with classes: calls, objects, and the order in which their parts are evaluated.

use crate::engine::runs::Row;

pub static ROWS: [Row; 5] = [
    (
        "a method calls itself and one declared later",
        "class A { fun sum(n: Int): Int { var s = 0; if (n > 0) { s = this.sum(n - 1) + this.square(n); } return s; } fun square(n: Int): Int { return n * n; } } main { print(new A().sum(3)); }",
        7,
        "14\n",
    ),
    (
        "an object has its fields under each of its names",
        "class Box { value: Int; fun put(n: Int) { this.value = n; } } class Pair { left: Box; right: Box; } main { val box = new Box(1); val pair = new Pair(box, new Box(2)); pair.left.value = 5; print(box.value); box.put(7); print(pair.left.value); print(pair.right.value); }",
        1,
        "5\n7\n2\n",
    ),
    (
        "after a fault in a call the caller has its names",
        "class A { fun fail(n: Int): Int { val x = n; return x / 0; } } main { val x = 3; val a = new A(); try { print(a.fail(4)); } catch (t) { print(t); } print(x); try { print(n); } catch (t) { print(t); } }",
        1,
        "DivZero\n3\nKind\n",
    ),
    (
        "parts are evaluated from left to right",
        "class A { fun at(n: Int): A { print(n); return this; } fun tell(n: Int): Int { print(n); return n; } fun less(a: Int, b: Int): Int { return a - b; } } main { val a = new A(); print(a.at(1).less(a.tell(2), a.tell(3))); print(List<Int>(a.tell(4), a.tell(5))[a.tell(1)]); }",
        7,
        "1\n2\n3\n-1\n4\n5\n1\n5\n",
    ),
    (
        "a call within 32 calls is too deep",
        "class A { count: Int; fun deeper() { this.count = this.count + 1; this.deeper(); } } main { val a = new A(0); try { a.deeper(); } catch (t) { print(t); } print(a.count); }",
        40,
        "TooDeep\n32\n",
    ),
];

// The sums of a matrix's rows, each entry times the query's: eight rows at a time, so that the sum of one row does not wait for that of another.
// Each row's sum takes its terms in the order of the columns. The products of sixteen columns are formed first, side by side with those of a
// neighbouring row, as the additions need them.
#![tactic(auto)]

ghost use Rattle.std.specs.Prelude.{◌≡◌, ◌+◌, ◌*◌, ◌≤◌, ◌<◌, length, drop};
ghost use Rattle.rounding.specs.Sums.{dot};
ghost use Rattle.rounding.specs.Rows.{projected};
ghost use Rattle.qjl_sums.specs.Inner.{Interleaved, Added, FourSoFar, four_set};

// The sums of four rows that follow one another.
#[derive(Clone, Copy)]
struct Four {
    a: f32,
    b: f32,
    c: f32,
    d: f32,
}

// The sums of four rows and of four more.
#[derive(Clone, Copy)]
struct Eight {
    upper: Four,
    lower: Four,
}

// The same sums as far as a column.
#[derive(Clone, Copy)]
struct Begun {
    column: usize,
    sums: Eight,
}

// For each value of the output, the sum of a row's entries times the query's; a row has as many entries as the query.
pub fn row_sums(matrix: &[f32], query: &[f32], out: &mut [f32])
    ensures { out.new ≡ projected (length query.now) (length out.old) matrix.now query.now }
{
    let rows = out.len();
    if rows < 4 {
        each_row(matrix, query, out);
        return;
    }
    if matrix.len() / rows < query.len() {
        each_row(matrix, query, out);
        return;
    }
    eights(matrix, query, out);
}

// The same sums, eight rows at a time, where there are four rows and more. The last rows are taken twice if they do not come to eight.
fn eights(matrix: &[f32], query: &[f32], out: &mut [f32])
    requires { (4 ≤ length out.old) × (length out.old * length query.now ≤ length matrix.now) }
    ensures { out.new ≡ projected (length query.now) (length out.old) matrix.now query.now }
{
    let columns = query.len();
    let last = out.len() - 4;
    for row in (0..out.len()).step_by(8) {
        let upper = row.min(last);
        let lower = (row + 4).min(last);
        let sums = eight_rows(matrix, upper * columns, lower * columns, query);
        let first = sums.upper;
        put(out, upper, first);
        let second = sums.lower;
        put(out, lower, second);
    }
}

// The same sums, row by row; the matrix may end before its rows do.
fn each_row(matrix: &[f32], query: &[f32], out: &mut [f32])
    ensures { out.new ≡ projected (length query.now) (length out.old) matrix.now query.now }
{
    let mut from = 0;
    for o in out.iter_mut() {
        *o = row_sum(matrix, from, query);
        from = (from + query.len()).min(matrix.len());
    }
}

// The sum of one row, which starts at an index of the matrix.
fn row_sum(matrix: &[f32], from: usize, query: &[f32]) -> f32
    requires { from ≤ length matrix.now }
    ensures { result ≡ dot (drop from matrix.now) query.now }
{
    let mut sum = 0.0f32;
    for (&entry, &value) in matrix[from..].iter().zip(query) {
        sum = sum + entry * value;
    }
    sum
}

// Stores four sums from an index of the output on.
fn put(out: &mut [f32], at: usize, sums: Four)
    requires { at + 4 ≤ length out.old }
    ensures { out.new ≡ four_set out.old at sums }
{
    out[at] = sums.a;
    out[at + 1] = sums.b;
    out[at + 2] = sums.c;
    out[at + 3] = sums.d;
}

// The sums of the four rows from one index of the matrix on, and of the four from another on.
fn eight_rows(matrix: &[f32], upper: usize, lower: usize, query: &[f32]) -> Eight
    requires { (upper + 4 * length query.now ≤ length matrix.now) × (lower + 4 * length query.now ≤ length matrix.now) }
    ensures { FourSoFar matrix.now query.now upper (length query.now) result.upper × FourSoFar matrix.now query.now lower (length query.now) result.lower }
{
    let begun = blocks(matrix, upper, lower, query);
    let sums = begun.sums;
    ends(matrix, upper, lower, query, begun.column, sums)
}

// The same sums as far as whole blocks of sixteen columns go.
fn blocks(matrix: &[f32], upper: usize, lower: usize, query: &[f32]) -> Begun
    requires { (upper + 4 * length query.now ≤ length matrix.now) × (lower + 4 * length query.now ≤ length matrix.now) }
    ensures { FourSoFar matrix.now query.now upper result.column result.sums.upper × FourSoFar matrix.now query.now lower result.column result.sums.lower }
{
    let none = Four {
        a: 0.0,
        b: 0.0,
        c: 0.0,
        d: 0.0,
    };
    let mut sums = Eight {
        upper: none,
        lower: none,
    };
    let count = query.len() / 16;
    for k in 0..count {
        sums = block(matrix, upper, lower, query, 16 * k, sums);
    }
    Begun {
        column: 16 * count,
        sums,
    }
}

// The sums with the terms of sixteen more columns.
fn block(
    matrix: &[f32],
    upper: usize,
    lower: usize,
    query: &[f32],
    column: usize,
    sums: Eight,
) -> Eight
    requires { (column + 16 ≤ length query.now) × (FourSoFar matrix.now query.now upper column sums.upper × FourSoFar matrix.now query.now lower column sums.lower) }
    ensures { FourSoFar matrix.now query.now upper (column + 16) result.upper × FourSoFar matrix.now query.now lower (column + 16) result.lower }
{
    let mut w = [0.0f32; 32];
    let mut x = [0.0f32; 32];
    let mut y = [0.0f32; 32];
    let mut z = [0.0f32; 32];
    products(matrix, upper, query, column, &mut w, &mut x);
    products(matrix, lower, query, column, &mut y, &mut z);
    let mut first = sums.upper;
    let mut second = sums.lower;
    for i in 0..16 {
        first = plus(first, &w, &x, 2 * i);
        second = plus(second, &y, &z, 2 * i);
    }
    Eight {
        upper: first,
        lower: second,
    }
}

// The products of sixteen columns, of four rows from an index on: of the second row and the first by turns, and of the third and the fourth.
fn products(
    matrix: &[f32],
    from: usize,
    query: &[f32],
    column: usize,
    y: &mut [f32; 32],
    z: &mut [f32; 32],
)
    requires { ((column + 16 ≤ length query.now) × (from + 4 * length query.now ≤ length matrix.now)) × ((length y.old ≡ 32) × (length z.old ≡ 32)) }
    ensures second { Interleaved matrix.now query.now (from + length query.now) from column 16 y.new }
    ensures third { Interleaved matrix.now query.now (from + length query.now + length query.now) (from + length query.now + length query.now + length query.now) column 16 z.new }
{
    let columns = query.len();
    let second = from + columns;
    let third = second + columns;
    let fourth = third + columns;
    for i in 0..16 {
        let at = column + i;
        let factor = query[at];
        y[2 * i] = matrix[second + at] * factor;
        y[2 * i + 1] = matrix[from + at] * factor;
        z[2 * i] = matrix[third + at] * factor;
        z[2 * i + 1] = matrix[fourth + at] * factor;
    }
}

// The sums of four rows with one more product each, as `products` has placed them.
fn plus(sums: Four, y: &[f32; 32], z: &[f32; 32], at: usize) -> Four
    requires { at + 1 < 32 }
    ensures { Added sums y.now z.now at result }
{
    Four {
        a: sums.a + y[at + 1],
        b: sums.b + y[at],
        c: sums.c + z[at],
        d: sums.d + z[at + 1],
    }
}

// The sums with the terms of the columns from one on.
fn ends(
    matrix: &[f32],
    upper: usize,
    lower: usize,
    query: &[f32],
    start: usize,
    begun: Eight,
) -> Eight
    requires { FourSoFar matrix.now query.now upper start begun.upper × FourSoFar matrix.now query.now lower start begun.lower }
    ensures { FourSoFar matrix.now query.now upper (length query.now) result.upper × FourSoFar matrix.now query.now lower (length query.now) result.lower }
{
    let mut first = begun.upper;
    let mut second = begun.lower;
    for column in start..query.len() {
        first = one_more(matrix, upper, query, column, first);
        second = one_more(matrix, lower, query, column, second);
    }
    Eight {
        upper: first,
        lower: second,
    }
}

// The sums of four rows with the terms of one more column.
fn one_more(matrix: &[f32], from: usize, query: &[f32], column: usize, sums: Four) -> Four
    requires { (column < length query.now) × FourSoFar matrix.now query.now from column sums }
    ensures { FourSoFar matrix.now query.now from (column + 1) result }
{
    let columns = query.len();
    let second = from + columns;
    let third = second + columns;
    let fourth = third + columns;
    let factor = query[column];
    Four {
        a: sums.a + matrix[from + column] * factor,
        b: sums.b + matrix[second + column] * factor,
        c: sums.c + matrix[third + column] * factor,
        d: sums.d + matrix[fourth + column] * factor,
    }
}

// The projection of a query on the rows of a lent matrix: each is a sum in index order.
// Ported from turbo-quant/src/qjl.rs (`project_query`) and changed: the matrix and the output are lent, what is not finite is left to
// the callers' checks, and an error is a number and a place.
#![tactic(auto)]

ghost use Rattle.std.specs.Prelude.{◌≡◌, ◌*◌, eqb, length};
ghost use Rattle.error.specs.Answer.{done, after};
ghost use Rattle.error.specs.Outcomes.{says};
ghost use Rattle.qjl_rows.specs.Projection.{project_of};

use error::Refusal;

// The query projected on the rows of the matrix, one for each value of the output.
pub fn project(dim: usize, matrix: &[f32], query: &[f32], out: &mut [f32]) -> Result<(), Refusal>
    ensures said { says result ≡ done (project_of dim matrix.now query.now (length out.old)) }
    ensures left { out.new ≡ after (project_of dim matrix.now query.now (length out.old)) out.old }
{
    if query.len() != dim {
        return Err(Refusal::DimensionMismatch(query.len()));
    }
    if !is_product(matrix.len(), out.len(), dim) {
        return Err(Refusal::DimensionMismatch(matrix.len()));
    }
    qjl_sums::row_sums(matrix, query, out);
    Ok(())
}

// Whether a number is rows times columns. The product is not formed: it may pass the largest usize.
fn is_product(whole: usize, rows: usize, columns: usize) -> bool
    ensures { result ≡ eqb whole (rows * columns) }
{
    if columns == 0 {
        return whole == 0;
    }
    if whole % columns != 0 {
        return false;
    }
    whole / columns == rows
}

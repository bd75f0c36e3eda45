// The test of a query (paper 01, 'Nearest objects', 'Who is turned down').

ghost use Rattle.std.specs.Prelude.{◌≡◌};
ghost use Rattle.spec.specs.Node.WellFormed.{well_formed_vector};

// Internal: whether a query has 1 to 32 floats in the domain (22 if not).
pub fn query_fits(query: &[f32]) -> bool
    ensures { result ≡ well_formed_vector query.now }
{
    if query.len() == 0 {
        return false;
    }
    if 32 < query.len() {
        return false;
    }
    for x in query {
        if !float_distance::order::in_domain(*x) {
            return false;
        }
    }
    true
}

// Whether the entries of two items are the same.
ghost use Rattle.std.specs.Prelude.{◌≡◌, map as each};
ghost use Rattle.std.specs.Str.{bytes_eq};
ghost use Rattle.std.specs.Cmp.Lexicographic.{pointwise};
ghost use Rattle.dc_item.specs.After.{entry_eq};

/// Whether the same values stand at the same keys.
pub fn are_same(left: &[(&[u8], &[u8])], right: &[(&[u8], &[u8])]) -> bool
    ensures { result ≡ pointwise (entry_eq bytes_eq) (each (λ e. (e.0.now, e.1.now)) left.now) (each (λ e. (e.0.now, e.1.now)) right.now) }
{
    let mut others = right;
    for (key, value) in left {
        match others {
            [] => return false,
            [other, rest @ ..] => {
                if !(*key == other.0 && *value == other.1) {
                    return false;
                }
                others = rest;
            }
        }
    }
    others.is_empty()
}

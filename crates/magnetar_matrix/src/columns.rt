// The public words of logins, one login after the other.
ghost use Rattle.std.specs.Prelude.{◌≡◌};
ghost use Rattle.magnetar_matrix.specs.Table.{repeated};

// The first k words are followed by k words, the same ones.
pub fn repeats(s: &[u64], k: usize) -> bool
    ensures { result ≡ repeated k s.now }
{
    if k > s.len() / 2 {
        return false;
    }
    let (first, rest) = s.split_at(k);
    rest.starts_with(first)
}

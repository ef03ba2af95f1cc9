//! Lists that grow, while a grid is planned and its caches are made.

ghost use Rattle.std.specs.Prelude.{◌≡◌, ◌++◌, ◌∷◌, [], IfOk, OnErr, OnOk, length};

use cache_core::NoMemory;

/// Adds an element to the end of a list, and answers its index.
pub(crate) fn add_to<T: Drop>(list: &mut Vec<T>, next: T) -> Result<usize, NoMemory>
    ensures last { IfOk result (λ index. index ≡ length list.old.items) }
    ensures joined { OnOk result (list.new.items ≡ list.old.items ++ next ∷ []) }
    ensures kept { OnErr result (list.new.items ≡ list.old.items) }
{
    let index = list.len();
    if list.push(next).is_err() {
        return Err(NoMemory);
    }
    Ok(index)
}

/// What an expression makes of each of these plans, in their order.
macro_rules! made_for_each {
    ($alloc:expr, $plans:expr, $plan:ident => $one:expr) => {{
        let mut made = Vec::new($alloc);
        for $plan in $plans {
            let one = $one;
            $crate::lists::add_to(&mut made, one)?;
        }
        Ok(made)
    }};
}

pub(crate) use made_for_each;

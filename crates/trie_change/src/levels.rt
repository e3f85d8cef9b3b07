//! What the levels share, written once.

/// The entries with the key of a position in front, in order.
macro_rules! by_key {
    ($alloc:expr, $entries:expr, $position:expr, $list:ident, $entry:ident, $in_front:ident) => {{
        let mut $list = Vec::with_capacity($alloc, $entries.len())?;
        for $entry in $entries {
            $list.push($in_front(*$entry, $position))?;
        }
        $list.sort_unstable();
        Ok($list)
    }};
}

/// The hash changed by each entry.
macro_rules! toggled_all {
    ($level:ty, $hash:ident, $entries:expr, $entry:ident => $tuple:expr) => {{
        let mut hash = $hash;
        for $entry in $entries {
            hash = toggled::<M, $level>(hash, $tuple);
        }
        hash
    }};
}

/// How many entries at the front have the key first.
macro_rules! run_length {
    ($entries:expr, $key:expr) => {{
        let mut len = 0;
        while len < $entries.len() && $entries[len].0.0 == $key.0 {
            len += 1;
        }
        len
    }};
}

/// What each run of entries makes of the edge under its first key, one change after another.
macro_rules! each_run {
    ($entries:expr, $changes:expr, $run_length:ident, ($key:ident, $run:ident) => $change:expr) => {{
        let mut rest = $entries;
        while let Some(first) = rest.first() {
            let $key = first.0;
            let ($run, others) = rest.split_at($run_length(rest, $key));
            $changes.reserve(1)?;
            let edge = $change?;
            $changes.push_reserved(($key, edge));
            rest = others;
        }
        Ok(())
    }};
}

/// The map with the changes that are made. Its edges are in hand in place of the changes', or none for want of memory.
macro_rules! changed_map {
    ($context:expr, $level:ty, $old:expr, $changes:ident, $made:expr, $retains:expr) => {{
        if let Err(memory) = $made {
            release_changes::<M, $level>($context, &$changes);
            return Err(memory);
        }
        match $old.with(&$changes) {
            Ok(map) => {
                $context.retain_map::<$level, V>(&map, $retains);
                release_changes::<M, $level>($context, &$changes);
                Ok(map)
            }
            Err(memory) => {
                release_changes::<M, $level>($context, &$changes);
                Err(memory)
            }
        }
    }};
}

pub(crate) use by_key;
pub(crate) use changed_map;
pub(crate) use each_run;
pub(crate) use run_length;
pub(crate) use toggled_all;

//! The labels of a pattern's places.
ghost use Rattle.std.specs.Prelude.{◌≡◌, ◌↔◌, ◌+◌, ◌*◌, ◌<◌, ◌≤◌, [], IfSome, IsTrue};
ghost use Rattle.bag_list.specs.Labels.{doubled, labels_of, mask_of, mask_with, place_without, without};

use trie_depth::Mask;

/// The label at each place, where one stands that isn't fixed. The places with one are the positions of the pattern's
/// operand, in their order.
#[derive(Clone, Copy)]
pub struct Labels(pub Option<u8>, pub Option<u8>, pub Option<u8>);

impl Labels {
    /// The positions of a label; none where it stands nowhere.
    pub fn mask(self, label: u8) -> Mask
        ensures { result.0 ≡ mask_of label (labels_of self) }
    {
        let third = with_place(self.2, label, 0);
        let second = with_place(self.1, label, third);
        Mask(with_place(self.0, label, second))
    }

    /// Whether no label is left.
    pub fn is_none(self) -> bool
        ensures { IsTrue result ↔ (labels_of self ≡ []) }
    {
        self.0.is_none() && self.1.is_none() && self.2.is_none()
    }

    /// The label that stands at two places, if one does.
    pub fn doubled(self) -> Option<u8>
        ensures doubled { result ≡ doubled (labels_of self) }
        ensures there { IfSome result (λ l. 1 ≤ mask_of l (labels_of self)) }
    {
        if self.0 == self.1 || self.0 == self.2 {
            return self.0;
        }
        if self.1 == self.2 { self.1 } else { None }
    }

    /// Without a label.
    pub fn without(self, label: u8) -> Labels
        ensures { labels_of result ≡ without label (labels_of self) }
    {
        Labels(
            other(self.0, label),
            other(self.1, label),
            other(self.2, label),
        )
    }
}

/// The mask with one place before those that `behind` names.
fn with_place(place: Option<u8>, label: u8, behind: u8) -> u8
    requires { behind < 4 }
    ensures mask { result ≡ mask_with place label behind }
    ensures small { result ≤ 2 * behind + 1 }
{
    match place {
        None => behind,
        Some(other) if other == label => 2 * behind + 1,
        Some(_) => 2 * behind,
    }
}

/// What stands there, if it isn't the label.
fn other(place: Option<u8>, label: u8) -> Option<u8>
    ensures { result ≡ place_without label place }
{
    match place {
        Some(other) if other == label => None,
        _ => place,
    }
}

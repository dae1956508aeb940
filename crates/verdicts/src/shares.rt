// The accepted shares in a form, opened or added, and what the t lowest members who have one recover.
ghost use Rattle.std.specs.Prelude.{◌≡◌, ◌<◌};
ghost use Rattle.verdicts.specs.Shares.{judges, share_answer, shares_in, from_lowest};
ghost use Rattle.verdicts.specs.Posted.{SharesOn, ShareOf};
ghost use Rattle.verdicts.specs.Gathered.{pushed, with_share, lowest_in};

use crate::GatheredShares;
use board::{find_key, place_of};
use group::Element;
use share::{EncryptedShare, ShareForm, judge_share_figures};
use sharing::{Setting, recovered_from};
use words::{Refusal, record_at};

impl GatheredShares {
    // One more behind the others. Internal: callers ensure that there is room.
    fn push(&mut self, member: u32, share: u32)
        requires { self.old.count < 31 }
        ensures { self.new ≡ pushed member share self.old }
    {
        self.members[self.count] = member;
        self.shares[self.count] = share;
        self.count += 1;
    }
}

// What the judge of shares answers for the record i with the key of its member and his encrypted share: its figures decide, for the
// board settles the rest.
// Internal: callers ensure that verdicts are reached, that it is a share in this form, and that each member has an encrypted share.
#[tactic(auto, using(crate::proofs::ShareAnswers::shares_sorted, crate::proofs::ShareAnswers::share_member, crate::proofs::ShareAnswers::share_dealer, crate::proofs::ShareAnswers::answered), unfolding(words::specs::Lists::entry))]
fn accepted_share(
    s: Setting,
    form: ShareForm,
    b: &[u8],
    encrypted: &[u32],
    i: usize,
) -> Result<Element, Refusal>
    requires { (ShareOf b.now form i) × (SharesOn s b.now form encrypted.now) }
    ensures { result ≡ share_answer judges s b.now form encrypted.now i }
{
    let share = record_at(b, i);
    let key = record_at(b, find_key(b, share.w2));
    let e = EncryptedShare {
        form,
        member: share.w2,
        encrypted: Element(encrypted[share.w2 as usize - 1]),
    };
    judge_share_figures(s, e, Element(key.w3), share)
}

// Adds the share in the record i to those found before it, where it is an accepted one.
// Internal: callers ensure what accepted_share asks, and that there is room.
#[tactic(auto, using(crate::proofs::ShareAnswers::with_none, crate::proofs::ShareAnswers::with_one))]
fn with_share(
    s: Setting,
    form: ShareForm,
    b: &[u8],
    encrypted: &[u32],
    i: usize,
    found: &mut GatheredShares,
)
    requires { (ShareOf b.now form i) × (SharesOn s b.now form encrypted.now) × (found.old.count < 31) }
    ensures { found.new ≡ with_share judges s b.now form encrypted.now i found.old }
{
    let Ok(decrypted) = accepted_share(s, form, b, encrypted, i) else {
        return;
    };
    found.push(record_at(b, i).w2, decrypted.0);
}

// The t lowest members with accepted shares, or all where there are fewer: the shares of one form stand in a row, by ascending
// member.
// Internal: callers ensure that verdicts are reached, and that each member has an encrypted share.
fn lowest_shares(s: Setting, form: ShareForm, b: &[u8], encrypted: &[u32]) -> GatheredShares
    requires { SharesOn s b.now form encrypted.now }
    ensures { result ≡ lowest_in judges s b.now form encrypted.now }
{
    let start = place_of(b, form.kind, form.dealer, 0);
    let end = place_of(b, form.kind, form.dealer, 32);
    let mut found = GatheredShares {
        members: [0; 31],
        shares: [0; 31],
        count: 0,
    };
    for i in start..end {
        if found.count == s.t as usize {
            break;
        }
        with_share(s, form, b, encrypted, i, &mut found);
    }
    found
}

// What the t lowest members with accepted shares recover, refused by 13 where there are fewer.
// Internal: callers ensure that verdicts are reached, and that each member has an encrypted share.
#[tactic(auto, using(crate::proofs::Secrets::few_refused, crate::proofs::Secrets::members_count, crate::proofs::Secrets::shares_count, crate::proofs::Secrets::count_most, crate::proofs::Secrets::found_low, crate::proofs::Secrets::found_enough))]
pub(crate) fn from_lowest(
    s: Setting,
    form: ShareForm,
    b: &[u8],
    encrypted: &[u32],
) -> Result<Element, Refusal>
    requires { SharesOn s b.now form encrypted.now }
    ensures { result ≡ from_lowest s b.now (shares_in judges s b.now form encrypted.now) }
{
    let found = lowest_shares(s, form, b, encrypted);
    let k = found.count;
    if k < s.t as usize {
        return Err(Refusal::StillStuck);
    }
    Ok(recovered_from(s.group, &found.members[..k], &found.shares[..k]))
}

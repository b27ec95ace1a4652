//! Laws of sources, observers and dates, which hold of all calls and all times.
ghost use Rattle.std.specs.Prelude.{◌≡◌, ℕ, List, ◌↔◌, ◌<◌, ◌^◌, Some};
ghost use Rattle.rl_base.specs.Signals.{Call, AreAccepted, accepted_calls, is_signalled, is_valid, signal_bit, sources_after, sources_left, valid_bit};
ghost use Rattle.rl_base.specs.Activities.{ObserverCall, AreAcceptedObservers, accepted_observer_calls, is_valid_observer, observer_bit, observers_after, observers_left};
ghost use Rattle.rl_base.specs.Dates.{IsDateAfter, date_after};

/// After any accepted calls a source's two bits are the sentences about these calls; and after any calls, of which
/// some may be refused, they are the sentences about the accepted ones.
pub fn bits_of_sources()
    ensures valid { (calls : List Call) (s : ℕ) → AreAccepted calls →
        valid_bit (sources_after calls) s ≡ is_valid calls s }
    ensures signalled { (calls : List Call) (s : ℕ) → AreAccepted calls →
        signal_bit (sources_after calls) s ≡ is_signalled calls s }
    ensures valid_left { (calls : List Call) (s : ℕ) →
        valid_bit (sources_left calls) s ≡ is_valid (accepted_calls calls) s }
    ensures signalled_left { (calls : List Call) (s : ℕ) →
        signal_bit (sources_left calls) s ≡ is_signalled (accepted_calls calls) s }
{}

/// After any accepted calls an observer's bit is the sentence about these calls; and after any calls, of which some
/// may be refused, it is the sentence about the accepted ones.
pub fn bit_of_observers()
    ensures valid { (calls : List ObserverCall) (o : ℕ) → AreAcceptedObservers calls →
        observer_bit (observers_after calls) o ≡ is_valid_observer calls o }
    ensures valid_left { (calls : List ObserverCall) (o : ℕ) →
        observer_bit (observers_left calls) o ≡ is_valid_observer (accepted_observer_calls calls) o }
{}

/// The date after a call, which a division gives, is the least first date plus a multiple of the interval that is
/// above the time of the call. There is one exactly if the interval is not 0 and that date is below 2^64.
pub fn date_after_call()
    ensures { (first interval now date : ℕ) → (date_after first interval now ≡ Some date)
        ↔ ((0 < interval) × IsDateAfter first interval now date × (date < 2 ^ 64)) }
{}

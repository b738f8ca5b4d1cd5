// The widgets that show a document, by their numbers.
ghost use Rattle.std.specs.Prelude.{◌≡◌, ◌<◌, length};
ghost use Rattle.rt_text.specs.Widgets.{widgets_of};
ghost use Rattle.rt_peers.specs.Peers.{view_led, view_without};

use rt_text::View;
use rt_tree::TreeStore;

// Lets the widget of a number command: it and the first one change places. It takes no memory.
pub(crate) fn lead(view: &mut View<TreeStore>, number: usize)
    requires { number < length (widgets_of view.old) }
    ensures { view.new ≡ view_led number view.old }
{
    if number > 0 {
        view.exchange(number - 1);
    }
}

// Takes the first widget out, where there is another: that one is then the first.
fn remove_first(view: &mut View<TreeStore>)
    requires { 1 < length (widgets_of view.old) }
    ensures { view.new ≡ view_without 0 view.old }
{
    view.exchange(0);
    view.remove_widget(0);
}

// Takes the widget of a number out, which isn't the only one. It takes no memory.
pub(crate) fn remove_at(view: &mut View<TreeStore>, number: usize)
    requires there { number < length (widgets_of view.old) }
    requires several { 1 < length (widgets_of view.old) }
    ensures { view.new ≡ view_without number view.old }
{
    if number == 0 {
        remove_first(view);
    } else {
        view.remove_widget(number - 1);
    }
}
